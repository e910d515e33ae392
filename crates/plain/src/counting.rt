// All contents of an array, one after the other.
ghost use Rattle.std.specs.Prelude.{◌≡◌, ℕ, ◌≤◌, true, false};
ghost use Rattle.plain.specs.Counting.{Carried, Counted};

use crate::values::{get, plus_product, put};

// The next values at the places `from` up to `to`, in the order of counting; false after the last.
pub fn advance(p: u16, a: &mut [u16], from: usize, to: usize) -> bool
    ensures by_index { result ≡ true → ((at : ℕ) × Counted p a.old a.new from to at) }
    ensures carried { from ≤ to → result ≡ false → Carried p a.old a.new from to }
{
    for i in from..to {
        let v = plus_product(p, get(a, i), 1, 1);
        put(a, i, v);
        if v != 0 {
            return true;
        }
    }
    false
}
