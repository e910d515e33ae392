// Products and differences of 16-bit numbers, of which many fit a vector register, with no division. That a difference is below p follows from what it
// equals; it is said besides, for the callers.
ghost use Rattle.std.specs.Prelude.{◌≡◌, ◌*◌, ◌≤◌, ◌<◌};
ghost use Rattle.field.specs.Residue.{minus};

pub fn product(a: u16, b: u16) -> u32
    ensures { result ≡ a * b }
{
    u32::from(a) * u32::from(b)
}

pub fn difference(a: u16, b: u16, p: u16) -> u16
    requires { (a < p) × (b ≤ p) }
    ensures equals { result ≡ minus p a b }
    ensures below { result < p }
{
    if a >= b {
        return a - b;
    }
    a + (p - b)
}
