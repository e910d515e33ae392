// What is worked out of the modulus once.
ghost use Rattle.std.specs.Prelude.{◌≡◌, ◌*◌, ◌%◌};
ghost use Rattle.discrepancy.specs.Modulus.{Taken, WorkedOut};

use crate::Modulus;
use field::montgomery::odd_inverse;
use field::reciprocal::{reciprocal, wide_reciprocal};

// The inverse of p modulo 2^16; 2 has none.
fn inverse_of(p: u32) -> u16
    requires { Taken p }
    ensures { (p ≡ 2 → ⊥) → (p * result) % 65536 ≡ 1 }
{
    if p == 2 {
        return 0;
    }
    odd_inverse(p as u16)
}

pub fn worked_out(p: u32) -> Modulus
    requires { Taken p }
    ensures { (result.p ≡ p) × WorkedOut result }
{
    let wide = wide_reciprocal(p);
    let reciprocal = reciprocal(p);
    let inverse = inverse_of(p);
    Modulus {
        p,
        wide,
        reciprocal,
        unit: 65536 % p,
        inverse,
    }
}
