// Which cells of a frame hold symbols.
ghost use Rattle.std.specs.Prelude.{◌≡◌, true, ◌+◌, ◌*◌, ◌<◌, ltb, length, get_or, slice_range};
ghost use Rattle.frame.specs.Encode.{data_below};
ghost use Rattle.frame.specs.Frame.{frame_tests};
ghost use Rattle.frame.specs.Shape.{checks_of, is_shape};
ghost use Rattle.lists.specs.Tabulate.{every};
ghost use Rattle.refusal.specs.Outcome.{outcome, outcome_of};

use frame::Shape;
use refusal::{Refusal, require};

// Whether every cell holds a symbol. All cells are read, with no way out between, so that several are compared at once.
pub fn all_below(cells: &[u16]) -> bool
    ensures { result ≡ every (length cells.now) (λ k. ltb (get_or cells.now k 0) 257) }
{
    let mut all = true;
    for cell in cells {
        all &= *cell < 257;
    }
    all
}

// The refusals of a frame that is not well-formed.
#[tactic(auto, unfolding(frame::specs::Frame::frame_tests))]
pub fn check_frame(s: Shape, frame: &[u16]) -> Result<(), Refusal>
    requires { is_shape s ≡ true }
    ensures { outcome_of result ≡ outcome (frame_tests s frame.now) }
{
    require(frame.len() == s.rows * s.columns, Refusal::FrameSize)?;
    require(all_below(frame), Refusal::Symbol)
}

// The data cells of row h.
pub fn data_cells(s: Shape, frame: &[u16], h: usize) -> &[u16]
    requires { (is_shape s ≡ true) × (length frame.now ≡ s.rows * s.columns) × (h < s.rows) }
    ensures { result.now ≡ slice_range frame.now (h * s.columns + checks_of s h) (h * s.columns + s.columns) }
{
    let row = h * s.columns;
    &frame[row + usize::from(s.checks[h])..row + s.columns]
}

// Whether every data cell holds a symbol.
pub fn data_below(s: Shape, frame: &[u16]) -> bool
    requires { (is_shape s ≡ true) × (length frame.now ≡ s.rows * s.columns) }
    ensures { result ≡ data_below s frame.now }
{
    for h in 0..s.rows {
        if !all_below(data_cells(s, frame, h)) {
            return false;
        }
    }
    true
}
