// A step of one of the jobs by the call on its head, which is taken out and put back.
ghost use Rattle.std.specs.Prelude.{◌<◌};
ghost use Rattle.dispatch.specs.Calls.{StepMade};
ghost use Rattle.kept.specs.Kept.{heads, searches};

use dispatch::Said;
use dispatch::answers::said;
use kept::heads::{head_at, put_head};
use slicing::next::next as next_one;

pub fn next(
    k: usize,
    states: &mut [[u32; 3]; 8],
    extents: &mut [[usize; 3]; 8],
    checks: &mut [[u16; 8]; 8],
    marks: &mut [[u64; 4]; 8],
    sums: &[[u16; 512]; 8],
    taps: &mut [[u16; 65]; 8],
    held: &[[u64; 32]; 8],
    counts: &mut [[u16; 5]; 8],
    lengths: &[[u16; 8]; 8],
    symbols: &[[u16; 1152]; 8],
    places: &mut [[u16; 8]; 8],
    sizes: &mut [[u16; 8]; 8],
    discs: &mut [[u16; 8]; 8],
    quotients: &mut [[u16; 8]; 8],
    register: &mut [[u16; 144]; 8],
    saved: &mut [[u16; 1152]; 8],
) -> Said
    requires { k < 8 }
    ensures { StepMade k (heads states.old extents.old checks.old marks.old) sums.now
        taps.old held.now
        (searches counts.old lengths.now symbols.now places.old sizes.old
        discs.old quotients.old register.old saved.old)
        result (heads states.new extents.new checks.new marks.new) taps.new
        (searches counts.new lengths.now symbols.now places.new sizes.new
        discs.new quotients.new register.new saved.new) }
{
    let r = next_one(
        head_at(k, states, extents, checks, marks),
        &sums[k],
        &mut taps[k],
        &held[k],
        &mut counts[k],
        &lengths[k],
        &symbols[k],
        &mut places[k],
        &mut sizes[k],
        &mut discs[k],
        &mut quotients[k],
        &mut register[k],
        &mut saved[k],
    );
    put_head(k, r.head, states, extents, checks, marks);
    said(r)
}
