// Frames as they are read: 0 in the declared cells, whatever these hold.
ghost use Rattle.std.specs.Prelude.{◌≡◌, true, ◌≤◌, length, take};
ghost use Rattle.erasures.specs.Readable.{ReadableFrame};
ghost use Rattle.frame.specs.Completion.{cleared};
ghost use Rattle.frame.specs.DeclaredCells.{WellFormedRead, as_read, declared_by, read_tests};
ghost use Rattle.frame.specs.Frame.{held_sums};
ghost use Rattle.frame.specs.Shape.{is_shape};
ghost use Rattle.refusal.specs.Outcome.{outcome, outcome_of};

use crate::cells::{cells_of, is_declarable};
use codec::sums::frame_sums;
use columns::{Columns, next};
use frame::Shape;
use refusal::{Refusal, require};
use shapes::symbols::all_below;

// 0 in the columns of the set.
// Kept as a while: it ends at the first marked column past the row, and an iterator over the set would not.
fn clear(set: Columns, row: &mut [u16])
    requires { length row.old ≤ 256 }
    ensures { row.new ≡ cleared (length row.old) set row.old }
{
    let mut i = next(set, 0);
    while i < row.len() {
        row[i] = 0;
        i = next(set, i + 1);
    }
}

// 0 in the declared cells. Each row is lent on as its own part of the frame.
pub fn clear_rows(s: Shape, declared: &[u64; 32], frame: &mut [u16])
    requires { ReadableFrame s frame.old }
    ensures { frame.new ≡ as_read s (declared_by declared.now) frame.old }
{
    for h in 0..s.rows {
        let a = h * s.columns;
        let e = a + s.columns;
        clear(cells_of(declared, h), &mut frame[a..e]);
    }
}

// A copy of the frame with 0 in the declared cells, at the front of what is lent: an array of this size that is returned is copied on its way.
fn read_into(s: Shape, declared: &[u64; 32], frame: &[u16], copy: &mut [u16; 2048])
    requires { ReadableFrame s frame.now }
    ensures { take (length frame.now) copy.new ≡ as_read s (declared_by declared.now) frame.now }
{
    let n = frame.len();
    copy[..n].copy_from_slice(frame);
    clear_rows(s, declared, &mut copy[..n]);
}

// The refusals of a frame of which cells are declared.
#[tactic(auto, unfolding(frame::specs::DeclaredCells::read_tests))]
pub fn check_read(s: Shape, declared: &[u64; 32], frame: &[u16]) -> Result<(), Refusal>
    requires { is_shape s ≡ true }
    ensures { outcome_of result ≡ outcome (read_tests s (declared_by declared.now) frame.now) }
{
    require(frame.len() == s.rows * s.columns, Refusal::FrameSize)?;
    require(is_declarable(s, declared), Refusal::BadCells)?;
    let mut read = [0; 2048];
    read_into(s, declared, frame, &mut read);
    require(all_below(&read[..frame.len()]), Refusal::Symbol)
}

// The check sums of the frame as read, row after row, and zeros after them. Never inlined, since the copy of the frame would stay on the stack of its callers.
#[inline(never)]
pub fn sums_read(s: Shape, declared: &[u64; 32], frame: &[u16]) -> [u16; 512]
    requires { (is_shape s ≡ true) × WellFormedRead s (declared_by declared.now) frame.now }
    ensures { result ≡ held_sums s (as_read s (declared_by declared.now) frame.now) }
{
    let mut read = [0; 2048];
    read_into(s, declared, frame, &mut read);
    frame_sums(s, &read[..frame.len()])
}
