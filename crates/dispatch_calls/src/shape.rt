// The shape of one of the jobs.
ghost use Rattle.dispatch.specs.Calls.{ShapeDoes};
ghost use Rattle.kept.specs.Kept.{heads};

use calls::shape::shape as shape_one;
use kept::heads::{head_at, put_head};
use refusal::Refusal;

// A head that is kept is put back too: numbers that only a forged one has are written over, as by the other calls.
pub fn shape(
    k: usize,
    states: &mut [[u32; 3]; 8],
    extents: &mut [[usize; 3]; 8],
    checks: &mut [[u16; 8]; 8],
    marks: &mut [[u64; 4]; 8],
    columns: usize,
    given: &[u16],
    exponent: u32,
) -> Result<(), Refusal>
    ensures { ShapeDoes k (heads states.old extents.old checks.old marks.old) columns
        given.now exponent result
        (heads states.new extents.new checks.new marks.new) }
{
    if k >= 8 {
        return Err(Refusal::NotUnfinished);
    }
    let j = head_at(k, states, extents, checks, marks);
    match shape_one(j, columns, given, exponent) {
        Ok(shaped) => {
            put_head(k, shaped, states, extents, checks, marks);
            Ok(())
        }
        Err(why) => {
            put_head(k, j, states, extents, checks, marks);
            Err(why)
        }
    }
}
