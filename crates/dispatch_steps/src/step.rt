// A step of one of the jobs, asked for by a call or by a turn.
ghost use Rattle.std.specs.Prelude.{◌<◌};
ghost use Rattle.dispatch.specs.Calls.{StepDoes, StepMade};
ghost use Rattle.kept.specs.Kept.{heads, searches};

use dispatch::Said;
use dispatch::answers::{no_job, still_unfinished};
use dispatch_next::next::next;
use onward::go_on;

// All steps but the last one are made in place, and leave the head as a start does: numbers that only a forged one has are written over.
pub fn make_step(
    k: usize,
    states: &mut [[u32; 3]; 8],
    extents: &mut [[usize; 3]; 8],
    checks: &mut [[u16; 8]; 8],
    marks: &mut [[u64; 4]; 8],
    sums: &[[u16; 512]; 8],
    taps: &mut [[u16; 65]; 8],
    held: &[[u64; 32]; 8],
    counts: &mut [[u16; 5]; 8],
    lengths: &[[u16; 8]; 8],
    symbols: &[[u16; 1152]; 8],
    places: &mut [[u16; 8]; 8],
    sizes: &mut [[u16; 8]; 8],
    discs: &mut [[u16; 8]; 8],
    quotients: &mut [[u16; 8]; 8],
    register: &mut [[u16; 144]; 8],
    saved: &mut [[u16; 1152]; 8],
) -> Said
    requires { k < 8 }
    ensures { StepMade k (heads states.old extents.old checks.old marks.old) sums.now
        taps.old held.now
        (searches counts.old lengths.now symbols.now places.old sizes.old
        discs.old quotients.old register.old saved.old)
        result (heads states.new extents.new checks.new marks.new) taps.new
        (searches counts.new lengths.now symbols.now places.new sizes.new
        discs.new quotients.new register.new saved.new) }
{
    if go_on(
        states[k][0] == 3,
        extents[k][0],
        extents[k][1],
        &checks[k],
        states[k][2],
        &mut counts[k],
        &lengths[k],
        &symbols[k],
        &mut places[k],
        &mut sizes[k],
        &mut discs[k],
        &mut quotients[k],
        &mut register[k],
        &mut saved[k],
    ) {
        states[k] = [3, 0, states[k][2]];
        extents[k] = [extents[k][0], extents[k][1], 0];
        marks[k] = [0; 4];
        return still_unfinished();
    }
    next(
        k, states, extents, checks, marks, sums, taps, held, counts, lengths, symbols, places,
        sizes, discs, quotients, register, saved,
    )
}

pub fn step(
    k: usize,
    states: &mut [[u32; 3]; 8],
    extents: &mut [[usize; 3]; 8],
    checks: &mut [[u16; 8]; 8],
    marks: &mut [[u64; 4]; 8],
    sums: &[[u16; 512]; 8],
    taps: &mut [[u16; 65]; 8],
    held: &[[u64; 32]; 8],
    counts: &mut [[u16; 5]; 8],
    lengths: &[[u16; 8]; 8],
    symbols: &[[u16; 1152]; 8],
    places: &mut [[u16; 8]; 8],
    sizes: &mut [[u16; 8]; 8],
    discs: &mut [[u16; 8]; 8],
    quotients: &mut [[u16; 8]; 8],
    register: &mut [[u16; 144]; 8],
    saved: &mut [[u16; 1152]; 8],
) -> Said
    ensures { StepDoes k (heads states.old extents.old checks.old marks.old) sums.now
        taps.old held.now
        (searches counts.old lengths.now symbols.now places.old sizes.old
        discs.old quotients.old register.old saved.old)
        result (heads states.new extents.new checks.new marks.new) taps.new
        (searches counts.new lengths.now symbols.now places.new sizes.new
        discs.new quotients.new register.new saved.new) }
{
    if k >= 8 {
        return no_job();
    }
    make_step(
        k, states, extents, checks, marks, sums, taps, held, counts, lengths, symbols, places,
        sizes, discs, quotients, register, saved,
    )
}
