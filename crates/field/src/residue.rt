// Arithmetic on residues modulo p. The square of 65520 fits a u32, so a product is reduced once. That a
// result is below p follows from what it equals; it is said besides, for the callers.
ghost use Rattle.std.specs.Prelude.{◌≡◌, ◌<◌};
ghost use Rattle.field.specs.Operands.{Operands, PowerOperands, QuotientOperands};
ghost use Rattle.field.specs.Residue.{plus, minus, times, power as powerOf, quotient as quotient_of};

use crate::reciprocal::remainder;

pub fn sum(a: u32, b: u32, p: u32) -> u32
    requires { Operands p a b }
    ensures equals { result ≡ plus p a b }
    ensures below { result < p }
{
    (a + b) % p
}

pub fn difference(a: u32, b: u32, p: u32) -> u32
    requires { Operands p a b }
    ensures equals { result ≡ minus p a b }
    ensures below { result < p }
{
    (a + (p - b)) % p
}

pub fn product(a: u32, b: u32, p: u32) -> u32
    requires { Operands p a b }
    ensures equals { result ≡ times p a b }
    ensures below { result < p }
{
    (a * b) % p
}

// s times a to the power e, from the power of the square of a at half of e; m is the reciprocal of p. The two products of a step do not wait for each
// other.
fn raise(s: u32, a: u32, e: u32, p: u32, m: u64) -> u32
    requires { PowerOperands p s a m }
    ensures equals { result ≡ times p s (powerOf p a e) }
    ensures below { result < p }
{
    if e == 0 {
        return s;
    }
    let square = remainder(a * a, p, m);
    if e % 2 == 0 {
        return raise(s, square, e / 2, p, m);
    }
    raise(remainder(s * a, p, m), square, e / 2, p, m)
}

// s over a modulo a prime p, where a is not 0: s times the inverse of a, its power p − 2. m is the reciprocal of p.
pub fn quotient(s: u32, a: u32, p: u32, m: u64) -> u32
    requires { QuotientOperands p s a m }
    ensures equals { result ≡ quotient_of p s a }
    ensures below { result < p }
{
    raise(s, a, p - 2, p, m)
}
