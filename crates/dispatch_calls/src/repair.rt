// Repairing a frame by one of the jobs.
ghost use Rattle.dispatch.specs.Calls.{RepairDoes};
ghost use Rattle.kept.specs.Kept.{heads};

use calls::repair::repair as repair_one;
use dispatch::Said;
use dispatch::answers::{no_job, said};
use kept::heads::{head_at, put_head};

pub fn repair(
    k: usize,
    states: &mut [[u32; 3]; 8],
    extents: &mut [[usize; 3]; 8],
    checks: &mut [[u16; 8]; 8],
    marks: &mut [[u64; 4]; 8],
    sums: &[[u16; 512]; 8],
    held: &[[u64; 32]; 8],
    frame: &mut [u16],
) -> Said
    ensures { RepairDoes k (heads states.old extents.old checks.old marks.old) sums.now
        held.now frame.old result
        (heads states.new extents.new checks.new marks.new) frame.new }
{
    if k >= 8 {
        return no_job();
    }
    let r = repair_one(
        head_at(k, states, extents, checks, marks),
        &sums[k],
        &held[k],
        frame,
    );
    put_head(k, r.head, states, extents, checks, marks);
    said(r)
}
