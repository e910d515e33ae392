// Whether mending makes a frame uniform: the cells outside the marked and declared columns hold one symbol, and that symbol in every cell makes as many check
// sums of each row 0 as it has such columns.
ghost use Rattle.std.specs.Prelude.{◌≡◌, not, length};
ghost use Rattle.columns.specs.Columns.{either, has, members};
ghost use Rattle.columns.specs.Listed.{least};
ghost use Rattle.decoding.specs.Remaining.{mended};
ghost use Rattle.frame.specs.DeclaredCells.{declared_by};
ghost use Rattle.frame.specs.Frame.{uniform};
ghost use Rattle.lists.specs.Tabulate.{every};
ghost use Rattle.uniform.specs.Constant.{constant_coded, kept_hold};
ghost use Rattle.uniform.specs.Mendable.{Mendable, SummedSets};

use crate::constant::rows_coded;
use crate::holds::kept_hold;
use columns::{Columns, contains, either, size};
use erasures::cells::cells_of;
use frame::Shape;

// The first of n columns that is not in the set, or n.
fn first_outside(set: Columns, n: usize) -> usize
    ensures { result ≡ least n (λ k. not (has set k)) }
{
    for k in 0..n {
        if !contains(set, k) {
            return k;
        }
    }
    n
}

// Whether every cell outside the marked and declared columns holds a.
fn rows_hold(s: Shape, declared: &[u64; 32], marked: Columns, frame: &[u16], a: u16) -> bool
    requires { Mendable s declared.now marked frame.now }
    ensures { result ≡ kept_hold s (λ h. either marked (declared_by declared.now h)) frame.now a }
{
    for h in 0..s.rows {
        let from = h * s.columns;
        let to = from + s.columns;
        let set = either(marked, cells_of(declared, h));
        if !kept_hold(&frame[from..to], set, a) {
            return false;
        }
    }
    true
}

// Whether a in every cell makes as many check sums of each row 0 as it has marked and declared columns.
fn sets_coded(s: Shape, declared: &[u64; 32], marked: Columns, a: u16) -> bool
    requires { SummedSets s declared.now marked a }
    ensures { result ≡ every s.rows (λ h. constant_coded s.exponent s.columns a (length (members (either marked (declared_by declared.now h))))) }
{
    rows_coded(s, a, |h| size(either(marked, cells_of(declared, h))))
}

// Whether the frame is uniform once it is mended. Two different symbols outside the columns end it at the second.
pub fn mends_uniform(s: Shape, declared: &[u64; 32], marked: Columns, frame: &[u16]) -> bool
    requires { Mendable s declared.now marked frame.now }
    ensures { result ≡ uniform (mended s (declared_by declared.now) marked frame.now) }
{
    let a = frame[first_outside(either(marked, cells_of(declared, 0)), s.columns)];
    rows_hold(s, declared, marked, frame, a) && sets_coded(s, declared, marked, a)
}
