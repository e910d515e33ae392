// The length of the register so far of one of the jobs. Nothing is written.
ghost use Rattle.dispatch.specs.Calls.{PeekDoes};
ghost use Rattle.kept.specs.Kept.{heads, searches};

use kept::heads::head_at;
use refusal::Refusal;
use slicing::peek::peek as peek_one;

pub fn peek(
    k: usize,
    states: &[[u32; 3]; 8],
    extents: &[[usize; 3]; 8],
    checks: &[[u16; 8]; 8],
    marks: &[[u64; 4]; 8],
    sums: &[[u16; 512]; 8],
    held: &[[u64; 32]; 8],
    counts: &[[u16; 5]; 8],
    lengths: &[[u16; 8]; 8],
    symbols: &[[u16; 1152]; 8],
    places: &[[u16; 8]; 8],
    sizes: &[[u16; 8]; 8],
    discs: &[[u16; 8]; 8],
    quotients: &[[u16; 8]; 8],
    register: &[[u16; 144]; 8],
    saved: &[[u16; 1152]; 8],
) -> Result<usize, Refusal>
    ensures { PeekDoes k (heads states.now extents.now checks.now marks.now) sums.now
        held.now
        (searches counts.now lengths.now symbols.now places.now sizes.now
        discs.now quotients.now register.now saved.now) result }
{
    if k >= 8 {
        return Err(Refusal::NotUnfinished);
    }
    peek_one(
        head_at(k, states, extents, checks, marks),
        &sums[k],
        &held[k],
        &counts[k],
        &lengths[k],
        &symbols[k],
        &places[k],
        &sizes[k],
        &discs[k],
        &quotients[k],
        &register[k],
        &saved[k],
    )
}
