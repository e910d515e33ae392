// Locating a frame by one of the jobs, at once.
ghost use Rattle.dispatch.specs.Calls.{LocateDoes};
ghost use Rattle.kept.specs.Kept.{heads};

use calls::locate::locate as locate_one;
use dispatch::Said;
use dispatch::answers::{no_job, said};
use kept::heads::{head_at, put_head};

pub fn locate(
    k: usize,
    states: &mut [[u32; 3]; 8],
    extents: &mut [[usize; 3]; 8],
    checks: &mut [[u16; 8]; 8],
    marks: &mut [[u64; 4]; 8],
    sums: &mut [[u16; 512]; 8],
    taps: &mut [[u16; 65]; 8],
    held: &mut [[u64; 32]; 8],
    declared: &[u64; 32],
    frame: &[u16],
) -> Said
    ensures { LocateDoes k (heads states.old extents.old checks.old marks.old) sums.old
        taps.old held.old declared.now frame.now result
        (heads states.new extents.new checks.new marks.new) sums.new taps.new held.new }
{
    if k >= 8 {
        return no_job();
    }
    let r = locate_one(
        head_at(k, states, extents, checks, marks),
        &mut sums[k],
        &mut taps[k],
        &mut held[k],
        declared,
        frame,
    );
    put_head(k, r.head, states, extents, checks, marks);
    said(r)
}
