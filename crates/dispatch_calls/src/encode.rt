// Encoding a frame by the shape of one of the jobs.
ghost use Rattle.dispatch.specs.Calls.{EncodeDoes};
ghost use Rattle.kept.specs.Kept.{heads};

use calls::encode::encode as encode_one;
use kept::heads::head_at;
use refusal::Refusal;

pub fn encode(
    k: usize,
    states: &[[u32; 3]; 8],
    extents: &[[usize; 3]; 8],
    checks: &[[u16; 8]; 8],
    marks: &[[u64; 4]; 8],
    frame: &mut [u16],
) -> Result<(), Refusal>
    ensures { EncodeDoes k (heads states.now extents.now checks.now marks.now) frame.old result
        frame.new }
{
    if k >= 8 {
        return Err(Refusal::NotUnfinished);
    }
    encode_one(head_at(k, states, extents, checks, marks), frame)
}
