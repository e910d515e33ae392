// Montgomery's product modulo 257: two products by halves, and no division. 65536 is 1 modulo 257, so the product comes out as it is.
ghost use Rattle.std.specs.Prelude.{◌≡◌, ◌≤◌, length, get_or};
ghost use Rattle.field257.specs.Montgomery.{companion as companionOf, montgomery};
ghost use Rattle.lists.specs.Tabulate.{tabulate};

use field::montgomery::{bottom, top};

// What is kept beside a factor that many numbers are multiplied by.
pub fn companion(y: u16) -> u16
    ensures { result ≡ companionOf y }
{
    bottom(y, 65281)
}

// The companions of 64 factors.
pub fn companions(x: &[u16]) -> [u16; 64]
    requires { length x.now ≡ 64 }
    ensures { result ≡ tabulate 64 (λ k. companionOf (get_or x.now k 0)) }
{
    let mut z = [0u16; 64];
    for (k, y) in x.iter().enumerate() {
        z[k] = companion(*y);
    }
    z
}

// a times the factor y, whose companion is z, modulo 257 and not reduced.
pub fn product(a: u16, y: u16, z: u16) -> u16
    requires { (y ≤ 257) × (z ≡ companionOf y) }
    ensures equals { result ≡ montgomery a y }
    ensures bounded { result ≤ 513 }
{
    top(a, y) + 257 - top(bottom(a, z), 257)
}
