// Mending a frame at a set of columns that its rows share: each row is completed there.
ghost use Rattle.std.specs.Prelude.{◌≡◌};
ghost use Rattle.completion.specs.Mendable.{MendableColumn, MendableFrame};
ghost use Rattle.completion.specs.Mending.{mended_column};
ghost use Rattle.frame.specs.Completion.{completed};
ghost use Rattle.frame.specs.Encode.{each_row};

use crate::cell::mend_cell;
use columns::{Columns, size};
use field257::powers::powers;
use frame::Shape;
use polynomials::locator::locator_polynomial;
use weights::weigh;

// Column i mended in every row, with the coefficients of the column. Each row is lent on as its own part of the frame.
fn mend_column(s: Shape, frame: &mut [u16], i: usize, coefficients: &[u16], sums: &[u16])
    requires { MendableColumn s frame.old i coefficients.now sums.now }
    ensures { frame.new ≡ mended_column s coefficients.now sums.now i frame.old }
{
    let mut at: usize = 0;
    for h in 0..s.rows {
        let to = at + usize::from(s.checks[h]);
        let a = h * s.columns;
        let e = a + s.columns;
        mend_cell(&mut frame[a..e], i, coefficients, &sums[at..to]);
        at = to;
    }
}

// The frame with each row completed at the set, given the check sums that are held of it. The rows share the coefficients, column after column, so that those
// of one column alone are kept.
pub fn mend(s: Shape, set: Columns, sums: &[u16], frame: &mut [u16])
    requires { MendableFrame s set sums.now frame.old }
    ensures { frame.new ≡ each_row s.columns (λ h. completed s.exponent s.columns set) s.rows frame.old }
{
    let powers = powers();
    let m = size(set);
    let f = locator_polynomial(&powers, set);
    let mut coefficients = [0u16; 64];
    for i in set.members() {
        weigh(&powers, s.exponent, &f, i, &mut coefficients[0..m]);
        mend_column(s, frame, i, &coefficients[0..m], sums);
    }
}
