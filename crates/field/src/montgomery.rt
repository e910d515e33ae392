// Products modulo an odd p without a division (Montgomery), and the inverse of p modulo 2^16 that they need (Newton).
ghost use Rattle.std.specs.Prelude.{◌≡◌, ◌+◌, ◌-◌, ◌*◌, ◌/◌, ◌%◌, ◌<◌};

use crate::narrow::{difference, product};

// The upper 16 bits of a product.
pub fn top(a: u16, b: u16) -> u16
    ensures { result ≡ a * b / 65536 }
{
    (product(a, b) / 65536) as u16
}

// The lower 16 bits of a product.
pub fn bottom(a: u16, b: u16) -> u16
    ensures { result ≡ (a * b) % 65536 }
{
    (product(a, b) % 65536) as u16
}

// A better inverse of p modulo 2^16 than v, which is v·(2 − p·v): where p·v is 1 modulo m, p·r is 1 modulo m².
fn better(p: u16, v: u16) -> u16
    ensures { (p * result) % 65536 ≡ ((p * v) % 65536 * (65538 - (p * v) % 65536)) % 65536 }
{
    bottom(v, ((65538 - u32::from(bottom(p, v))) % 65536) as u16)
}

// The inverse of an odd p modulo 2^16: 1 is right modulo 2, then 4, 16, 256 and 65536.
pub fn odd_inverse(p: u16) -> u16
    requires { p % 2 ≡ 1 }
    ensures { (p * result) % 65536 ≡ 1 }
{
    better(p, better(p, better(p, better(p, 1))))
}

// x less y·u over 2^16, modulo p. v, the companion of u, is u over p modulo 2^16, so that y·u and (y·v)·p have the same lower 16 bits, and the upper ones
// differ by y·u over 2^16. They are taken off x, and put back, one after the other, so that the compiler compares in 16 bits.
pub fn less_product(x: u16, y: u16, u: u16, v: u16, p: u16) -> u16
    requires { (x < p) × (u < p) × ((v * p) % 65536 ≡ u) }
    ensures equals { (65536 * result + y * u) % p ≡ (65536 * x) % p }
    ensures below { result < p }
{
    let rest = difference(x, top(y, u), p);
    difference(rest, p - top(bottom(y, v), p), p)
}
