// Which numbers are taken as a modulus.
ghost use Rattle.std.specs.Prelude.{◌≡◌};
ghost use Rattle.field.specs.Prime.{is_modulus};

// Whether p is a prime up to 65521. A p that is not prime has a divisor d with d * d <= p, and so one below 256; that of an odd p is odd.
pub fn is_modulus(p: u32) -> bool
    ensures { result ≡ is_modulus p }
{
    if p < 2 {
        return false;
    }
    if p > 65521 {
        return false;
    }
    if p % 2 == 0 {
        return p == 2;
    }
    for d in (3..256).step_by(2) {
        if d * d > p {
            break;
        }
        if p % d == 0 {
            return false;
        }
    }
    true
}
