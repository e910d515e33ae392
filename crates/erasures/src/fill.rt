// A frame filled at its marked and declared columns.
ghost use Rattle.std.specs.Prelude.{◌≡◌};
ghost use Rattle.decoding.specs.Remaining.{mended};
ghost use Rattle.erasures.specs.Fillable.{Fillable, FillableRows};
ghost use Rattle.frame.specs.DeclaredCells.{declared_by};

use crate::cells::cells_of;
use crate::reading::clear_rows;
use columns::{Columns, either};
use completion::row::mend_row;
use field257::powers::powers;
use frame::Shape;

// Each row of a frame as read completed at its marked and declared columns, given the check sums that are held of it. Each row is lent on as its own part.
fn fill_rows(s: Shape, declared: &[u64; 32], marked: Columns, sums: &[u16], frame: &mut [u16])
    requires { FillableRows s declared.now marked sums.now frame.old }
    ensures { frame.new ≡ mended s (declared_by declared.now) marked frame.old }
{
    let powers = powers();
    let mut at = 0;
    for h in 0..s.rows {
        let to = at + usize::from(s.checks[h]);
        let a = h * s.columns;
        let e = a + s.columns;
        mend_row(
            &powers,
            s.exponent,
            either(marked, cells_of(declared, h)),
            &sums[at..to],
            &mut frame[a..e],
        );
        at = to;
    }
}

// Each row completed at its marked and declared columns, given the check sums that are held of the frame as read. Mending adds what it reads off the
// sums to what a cell holds, so the declared cells are cleared first.
pub fn fill(s: Shape, declared: &[u64; 32], marked: Columns, sums: &[u16; 512], frame: &mut [u16])
    requires { Fillable s declared.now marked sums.now frame.old }
    ensures { frame.new ≡ mended s (declared_by declared.now) marked frame.old }
{
    clear_rows(s, declared, frame);
    fill_rows(s, declared, marked, sums, frame);
}
