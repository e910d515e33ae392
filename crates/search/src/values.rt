// The values of taps at 64 columns side by side.
ghost use Rattle.std.specs.Prelude.{◌≡◌, ℕ, ◌+◌, ◌%◌, ◌<◌, length, get_or};
ghost use Rattle.field257.specs.Montgomery.{montgomery};
ghost use Rattle.lists.specs.Tabulate.{tabulate};
ghost use Rattle.search.specs.Values.{Points, Steppable};
ghost use Rattle.weights.specs.Weights.{carried};

use field257::light::light;
use field257::montgomery::{companions, product};

// Horner's rule at the factors x, which have the companions z, goes on by one tap. Nothing is reduced.
fn step(tap: u16, x: &[u16], z: &[u16; 64], v: &mut [u16; 64])
    requires { Steppable tap x.now z.now v.old }
    ensures { v.new ≡ tabulate 64 (λ i. tap + montgomery (get_or v.old i 0) (get_or x.now i 0)) }
{
    for i in 0..64 {
        v[i] = tap + product(v[i], x[i], z[i]);
    }
}

// The values of the reversed taps at the factors x: from the first tap on, none of them reduced.
pub fn values(taps: &[u16], x: &[u16]) -> [u16; 64]
    requires { Points x.now }
    ensures { (i : ℕ) → i < 64 → get_or result i 0 % 257 ≡ carried taps.now (get_or x.now i 0) (length taps.now) }
{
    let z = companions(x);
    let mut v = [0; 64];
    for tap in taps {
        step(light(*tap), x, &z, &mut v);
    }
    v
}
