// Starting to locate a frame in slices by one of the jobs.
ghost use Rattle.dispatch.specs.Calls.{StartDoes};
ghost use Rattle.kept.specs.Kept.{heads, searches};

use dispatch::Said;
use dispatch::answers::{no_job, said};
use kept::heads::{head_at, put_head};
use slicing::start::start as start_one;

pub fn start(
    k: usize,
    states: &mut [[u32; 3]; 8],
    extents: &mut [[usize; 3]; 8],
    checks: &mut [[u16; 8]; 8],
    marks: &mut [[u64; 4]; 8],
    sums: &mut [[u16; 512]; 8],
    taps: &mut [[u16; 65]; 8],
    held: &mut [[u64; 32]; 8],
    counts: &mut [[u16; 5]; 8],
    lengths: &mut [[u16; 8]; 8],
    symbols: &mut [[u16; 1152]; 8],
    places: &mut [[u16; 8]; 8],
    sizes: &mut [[u16; 8]; 8],
    discs: &mut [[u16; 8]; 8],
    quotients: &mut [[u16; 8]; 8],
    register: &mut [[u16; 144]; 8],
    saved: &mut [[u16; 1152]; 8],
    declared: &[u64; 32],
    frame: &[u16],
) -> Said
    ensures { StartDoes k (heads states.old extents.old checks.old marks.old) sums.old
        taps.old held.old
        (searches counts.old lengths.old symbols.old places.old sizes.old
        discs.old quotients.old register.old saved.old)
        declared.now frame.now result (heads states.new extents.new checks.new marks.new)
        sums.new taps.new held.new
        (searches counts.new lengths.new symbols.new places.new sizes.new
        discs.new quotients.new register.new saved.new) }
{
    if k >= 8 {
        return no_job();
    }
    let r = start_one(
        head_at(k, states, extents, checks, marks),
        &mut sums[k],
        &mut taps[k],
        &mut held[k],
        &mut counts[k],
        &mut lengths[k],
        &mut symbols[k],
        &mut places[k],
        &mut sizes[k],
        &mut discs[k],
        &mut quotients[k],
        &mut register[k],
        &mut saved[k],
        declared,
        frame,
    );
    put_head(k, r.head, states, extents, checks, marks);
    said(r)
}
