// Whether rows can be completed at their marked and declared columns: with these taken out, what is left of the check sums is 0.
ghost use Rattle.std.specs.Prelude.{◌≡◌};
ghost use Rattle.columns.specs.Columns.{either};
ghost use Rattle.decoding.specs.Remaining.{meeting_completable};
ghost use Rattle.frame.specs.DeclaredCells.{declared_by};
ghost use Rattle.frame.specs.Frame.{held_sequences};
ghost use Rattle.remaining.specs.Testable.{completable_at, passes_row, Testable, TestableAt};

use crate::row::remaining;
use columns::{Columns, either, size};
use erasures::cells::cells_of;
use field257::powers::powers;
use frame::Shape;
use sequences::zeros::all_zero;

// Whether a row with these check sums can be completed at the set.
fn completable_at(powers: &[u16; 256], set: Columns, sums: &[u16]) -> bool
    requires { TestableAt powers.now set sums.now }
    ensures { result ≡ completable_at set sums.now }
{
    let mut left = [0u16; 64];
    let n = sums.len() - size(set);
    remaining(powers, set, sums, &mut left[0..n]);
    all_zero(&left[0..n])
}

// The same at marked and declared columns, of a row in which some marked column is declared; the sizes tell whether one is.
fn row_completable(powers: &[u16; 256], marked: Columns, cells: Columns, sums: &[u16]) -> bool
    requires { TestableAt powers.now (either marked cells) sums.now }
    ensures { result ≡ passes_row marked cells sums.now }
{
    let set = either(marked, cells);
    if size(set) < size(marked) + size(cells) {
        return completable_at(powers, set, sums);
    }
    true
}

// Whether each row in which some marked column is declared can be completed, given the check sums that are held.
pub fn is_completable(s: Shape, declared: &[u64; 32], marked: Columns, sums: &[u16; 512]) -> bool
    requires { Testable s (declared_by declared.now) marked sums.now }
    ensures { result ≡ meeting_completable s (declared_by declared.now) marked (held_sequences s sums.now) }
{
    let powers = powers();
    let mut at: usize = 0;
    for h in 0..s.rows {
        let to = at + usize::from(s.checks[h]);
        if !row_completable(&powers, marked, cells_of(declared, h), &sums[at..to]) {
            return false;
        }
        at = to;
    }
    true
}
