// One stage of a transform: of every four columns that lie 64 apart, each times its factor, four others.
ghost use Rattle.std.specs.Prelude.{◌≡◌, ◌+◌, ◌*◌, ◌%◌, ◌≤◌, ◌<◌, get_or};
ghost use Rattle.lists.specs.Tabulate.{tabulate};
ghost use Rattle.butterflies.specs.Butterflies.{Butterflies, Factors, Weighed, butterfly};

use field257::montgomery::{companion, product};

// Column k times its factor, modulo 257 and not reduced.
fn weighed(t: &[u16], x: &[u16; 256], k: usize) -> u16
    requires { Factors t.now × (k < 256) }
    ensures { Weighed t.now x.now k result }
{
    let w = t[k];
    product(x[k], w, companion(w))
}

// a + b + c + d modulo 257.
fn together(a: u16, b: u16, c: u16, d: u16) -> u16
    requires { (a ≤ 513) × (b ≤ 513) × (c ≤ 513) × (d ≤ 513) }
    ensures { result % 257 ≡ (a * 1 + b * 1 + c * 1 + d * 1) % 257 }
{
    a + b + c + d
}

// a - 16 b - c + 16 d modulo 257: 3^64 is -16. 8738 is 34 times 257.
fn turned(a: u16, b: u16, c: u16, d: u16) -> u16
    requires { (a ≤ 513) × (b ≤ 513) × (c ≤ 513) × (d ≤ 513) }
    ensures { result % 257 ≡ (a * 1 + b * 241 + c * 256 + d * 16) % 257 }
{
    (a + 16 * d + 8738) - (16 * b + c)
}

// a - b + c - d modulo 257. 1028 is 4 times 257.
fn alternating(a: u16, b: u16, c: u16, d: u16) -> u16
    requires { (a ≤ 513) × (b ≤ 513) × (c ≤ 513) × (d ≤ 513) }
    ensures { result % 257 ≡ (a * 1 + b * 256 + c * 1 + d * 256) % 257 }
{
    (a + c + 1028) - (b + d)
}

// The columns l, 64 + l, 128 + l and 192 + l, each times its factor.
fn four(t: &[u16], x: &[u16; 256], l: usize) -> (u16, u16, u16, u16)
    requires { Factors t.now × (l < 64) }
    ensures { Weighed t.now x.now l result.0 × Weighed t.now x.now (64 + l) result.1
        × Weighed t.now x.now (128 + l) result.2 × Weighed t.now x.now (192 + l) result.3 }
{
    (
        weighed(t, x, l),
        weighed(t, x, 64 + l),
        weighed(t, x, 128 + l),
        weighed(t, x, 192 + l),
    )
}

// One stage, of 64 butterflies: the columns l, 64 + l, 128 + l and 192 + l become the four from 4 l on. So the loop is the same in each stage, and several
// butterflies are worked out at once.
pub fn butterflies(t: &[u16], x: &[u16; 256], y: &mut [u16; 256])
    requires { Factors t.now }
    ensures { Butterflies t.now x.now y.new }
{
    for l in 0..64 {
        let (a, b, c, d) = four(t, x, l);
        y[4 * l] = together(a, b, c, d);
        y[4 * l + 1] = turned(a, b, c, d);
        y[4 * l + 2] = alternating(a, b, c, d);
        y[4 * l + 3] = turned(a, d, c, b);
    }
}

// The last stage: of each butterfly one column is asked, and reduced.
pub fn last(t: &[u16], x: &[u16; 256]) -> [u16; 64]
    requires { Factors t.now }
    ensures { result ≡ tabulate 64 (λ l. butterfly t.now x.now l 0 % 257) }
{
    let mut y = [0u16; 64];
    for (l, sum) in y.iter_mut().enumerate() {
        let (a, b, c, d) = four(t, x, l);
        *sum = together(a, b, c, d) % 257;
    }
    y
}
