// A turn: the next unfinished job after the one served last, in circular order, makes a step.
ghost use Rattle.dispatch.specs.Calls.{TurnDoes};
ghost use Rattle.kept.specs.Kept.{heads, kept, searches};

use dispatch::Turned;
use dispatch::answers::no_job;
use dispatch_steps::step::make_step;
use kept::order::next_unfinished;

pub fn turn(
    last: &mut usize,
    states: &mut [[u32; 3]; 8],
    extents: &mut [[usize; 3]; 8],
    checks: &mut [[u16; 8]; 8],
    marks: &mut [[u64; 4]; 8],
    sums: &[[u16; 512]; 8],
    taps: &mut [[u16; 65]; 8],
    held: &[[u64; 32]; 8],
    counts: &mut [[u16; 5]; 8],
    lengths: &[[u16; 8]; 8],
    symbols: &[[u16; 1152]; 8],
    places: &mut [[u16; 8]; 8],
    sizes: &mut [[u16; 8]; 8],
    discs: &mut [[u16; 8]; 8],
    quotients: &mut [[u16; 8]; 8],
    register: &mut [[u16; 144]; 8],
    saved: &mut [[u16; 1152]; 8],
) -> Turned
    ensures { TurnDoes (kept (heads states.old extents.old checks.old marks.old) sums.now
        taps.old held.now
        (searches counts.old lengths.now symbols.now places.old sizes.old
        discs.old quotients.old register.old saved.old) last.old)
        result
        (kept (heads states.new extents.new checks.new marks.new) sums.now taps.new
        held.now
        (searches counts.new lengths.now symbols.now places.new sizes.new
        discs.new quotients.new register.new saved.new) last.new) }
{
    let Some(k) = next_unfinished(*last, states) else {
        return Turned {
            job: 8,
            said: no_job(),
        };
    };
    *last = k;
    let said = make_step(
        k, states, extents, checks, marks, sums, taps, held, counts, lengths, symbols, places,
        sizes, discs, quotients, register, saved,
    );
    Turned { job: k, said }
}
