// Values of polynomials at powers of 3.
ghost use Rattle.std.specs.Prelude.{◌≡◌, ◌+◌, ◌*◌, ◌/◌, ◌%◌, ◌^◌, ◌≤◌, ◌<◌, length, get_or};
ghost use Rattle.polynomials.specs.Evaluable.{Evaluable, Paired, linear_at};
ghost use Rattle.field.specs.Coefficients.{value};
ghost use Rattle.lists.specs.Total.{total};
ghost use Rattle.field257.specs.Powers.{power_of3};

use field::narrow::product;
use field257::powers::entry;

// Two coefficients in one number, the second in the upper half.
fn beside(a: u16, b: u16) -> u64
    ensures { result ≡ a + 4294967296 * b }
{
    u64::from(a) + 4294967296 * u64::from(b)
}

// The values at y of the polynomials of the two coefficients from k on and, beside it, from j on: one product for both.
fn linear(f: &[u16], k: usize, j: usize, y: u64) -> u64
    requires { Paired f.now k j y }
    ensures { result ≡ linear_at f.now k y + 4294967296 * linear_at f.now j y }
{
    beside(f[k], f[j]) + y * beside(f[k + 1], f[j + 1])
}

// What the coefficients up to the last multiple of four add to the value at 3^e, not reduced. The second half of them is summed beside the first, so that there
// are half as many products, and one power of 3 is looked up for four coefficients.
fn fours(powers: &[u16; 256], f: &[u16], e: u32) -> u64
    requires { Evaluable powers.now f.now e }
    ensures equals { result % 257 ≡ total (4 * (length f.now / 4)) (λ k. get_or f.now k 0 * power_of3 e ^ k) % 257 }
    ensures bounded { result ≤ 4 * (length f.now / 4) * 562949953421312 }
{
    let y = u64::from(entry(powers, e));
    let blocks = f.len() / 4;
    let half = 2 * blocks;
    let mut total: u64 = 0;
    let mut exponent: u32 = 0;
    for b in 0..blocks {
        total += linear(f, 2 * b, half + 2 * b, y) * u64::from(entry(powers, exponent));
        exponent += 2 * e;
    }
    total % 4294967296 + total / 4294967296 * u64::from(entry(powers, exponent))
}

// The value at 3^e of the polynomial with the coefficients f. The sum fits 64 bits, so that it is reduced once.
pub fn value_at(powers: &[u16; 256], f: &[u16], e: u32) -> u16
    requires { Evaluable powers.now f.now e }
    ensures equals { result ≡ value 257 f.now (power_of3 e) }
    ensures below { result < 257 }
{
    let mut total = fours(powers, f, e);
    let start = 4 * (f.len() / 4);
    let mut exponent = (start as u32) * e;
    for k in start..f.len() {
        total += u64::from(product(f[k], entry(powers, exponent)));
        exponent += e;
    }
    (total % 257) as u16
}
