// The calls on one of eight jobs and the turn, for C: the arrays of the jobs by pointer. The header makes of each a call on the struct that has these arrays.
ghost use Rattle.std.specs.Prelude.{[], ◌≡◌};
ghost use Rattle.capi.specs.Dispatcher.{answer_for, TurnGives, JobsShape, JobsEncode, JobsLocate, JobsRepair, JobsStart, JobsStep, JobsPeek};
ghost use Rattle.dispatch.specs.Calls.{EmptyDoes};
ghost use Rattle.dispatch.specs.Told.{said_told};
ghost use Rattle.kept.specs.Kept.{heads, kept, searches};

use dispatch::Said;
use mirror::answers::{answer_of, peeked_of, refusal_of};
use mirror::{CAnswer, CPeeked, CTurned};

fn said_of(said: Said) -> CAnswer
    ensures { result ≡ answer_for (said_told said []) }
{
    answer_of(said.reply, said.columns, said.tried)
}

#[unsafe(no_mangle)]
pub extern "C" fn tomkhadi_jobs_empty(
    last: &mut usize,
    states: &mut [[u32; 3]; 8],
    extents: &mut [[usize; 3]; 8],
    checks: &mut [[u16; 8]; 8],
    marks: &mut [[u64; 4]; 8],
)
    ensures { EmptyDoes (heads states.new extents.new checks.new marks.new) last.new }
{
    dispatch_calls::empty::empty(last, states, extents, checks, marks);
}

#[unsafe(no_mangle)]
pub extern "C" fn tomkhadi_jobs_shape(
    job: usize,
    states: &mut [[u32; 3]; 8],
    extents: &mut [[usize; 3]; 8],
    checks: &mut [[u16; 8]; 8],
    marks: &mut [[u64; 4]; 8],
    columns: usize,
    given: &[u16],
    exponent: u32,
) -> u32
    ensures { JobsShape job (heads states.old extents.old checks.old marks.old) columns
        given.now exponent result
        (heads states.new extents.new checks.new marks.new) }
{
    refusal_of(dispatch_calls::shape::shape(
        job, states, extents, checks, marks, columns, given, exponent,
    ))
}

#[unsafe(no_mangle)]
pub extern "C" fn tomkhadi_jobs_encode(
    job: usize,
    states: &[[u32; 3]; 8],
    extents: &[[usize; 3]; 8],
    checks: &[[u16; 8]; 8],
    marks: &[[u64; 4]; 8],
    frame: &mut [u16],
) -> u32
    ensures { JobsEncode job (heads states.now extents.now checks.now marks.now)
        frame.old result frame.new }
{
    refusal_of(dispatch_calls::encode::encode(job, states, extents, checks, marks, frame))
}

#[unsafe(no_mangle)]
pub extern "C" fn tomkhadi_jobs_locate(
    job: usize,
    states: &mut [[u32; 3]; 8],
    extents: &mut [[usize; 3]; 8],
    checks: &mut [[u16; 8]; 8],
    marks: &mut [[u64; 4]; 8],
    sums: &mut [[u16; 512]; 8],
    taps: &mut [[u16; 65]; 8],
    held: &mut [[u64; 32]; 8],
    declared: &[u64; 32],
    frame: &[u16],
) -> CAnswer
    ensures { JobsLocate job (heads states.old extents.old checks.old marks.old) sums.old
        taps.old held.old declared.now frame.now result
        (heads states.new extents.new checks.new marks.new) sums.new taps.new held.new }
{
    said_of(dispatch_calls::locate::locate(
        job, states, extents, checks, marks, sums, taps, held, declared, frame,
    ))
}

#[unsafe(no_mangle)]
pub extern "C" fn tomkhadi_jobs_repair(
    job: usize,
    states: &mut [[u32; 3]; 8],
    extents: &mut [[usize; 3]; 8],
    checks: &mut [[u16; 8]; 8],
    marks: &mut [[u64; 4]; 8],
    sums: &[[u16; 512]; 8],
    held: &[[u64; 32]; 8],
    frame: &mut [u16],
) -> CAnswer
    ensures { JobsRepair job (heads states.old extents.old checks.old marks.old) sums.now
        held.now frame.old result
        (heads states.new extents.new checks.new marks.new) frame.new }
{
    said_of(dispatch_calls::repair::repair(job, states, extents, checks, marks, sums, held, frame))
}

#[unsafe(no_mangle)]
pub extern "C" fn tomkhadi_jobs_start(
    job: usize,
    states: &mut [[u32; 3]; 8],
    extents: &mut [[usize; 3]; 8],
    checks: &mut [[u16; 8]; 8],
    marks: &mut [[u64; 4]; 8],
    sums: &mut [[u16; 512]; 8],
    taps: &mut [[u16; 65]; 8],
    held: &mut [[u64; 32]; 8],
    counts: &mut [[u16; 5]; 8],
    lengths: &mut [[u16; 8]; 8],
    symbols: &mut [[u16; 1152]; 8],
    places: &mut [[u16; 8]; 8],
    sizes: &mut [[u16; 8]; 8],
    discs: &mut [[u16; 8]; 8],
    quotients: &mut [[u16; 8]; 8],
    current: &mut [[u16; 144]; 8],
    saved: &mut [[u16; 1152]; 8],
    declared: &[u64; 32],
    frame: &[u16],
) -> CAnswer
    ensures { JobsStart job (heads states.old extents.old checks.old marks.old) sums.old
        taps.old held.old
        (searches counts.old lengths.old symbols.old places.old sizes.old
        discs.old quotients.old current.old saved.old)
        declared.now frame.now result (heads states.new extents.new checks.new marks.new)
        sums.new taps.new held.new
        (searches counts.new lengths.new symbols.new places.new sizes.new
        discs.new quotients.new current.new saved.new) }
{
    said_of(dispatch_slices::start::start(
        job, states, extents, checks, marks, sums, taps, held, counts, lengths, symbols, places,
        sizes, discs, quotients, current, saved, declared, frame,
    ))
}

#[unsafe(no_mangle)]
pub extern "C" fn tomkhadi_jobs_step(
    job: usize,
    states: &mut [[u32; 3]; 8],
    extents: &mut [[usize; 3]; 8],
    checks: &mut [[u16; 8]; 8],
    marks: &mut [[u64; 4]; 8],
    sums: &[[u16; 512]; 8],
    taps: &mut [[u16; 65]; 8],
    held: &[[u64; 32]; 8],
    counts: &mut [[u16; 5]; 8],
    lengths: &[[u16; 8]; 8],
    symbols: &[[u16; 1152]; 8],
    places: &mut [[u16; 8]; 8],
    sizes: &mut [[u16; 8]; 8],
    discs: &mut [[u16; 8]; 8],
    quotients: &mut [[u16; 8]; 8],
    current: &mut [[u16; 144]; 8],
    saved: &mut [[u16; 1152]; 8],
) -> CAnswer
    ensures { JobsStep job (heads states.old extents.old checks.old marks.old) sums.now
        taps.old held.now
        (searches counts.old lengths.now symbols.now places.old sizes.old
        discs.old quotients.old current.old saved.old)
        result (heads states.new extents.new checks.new marks.new) taps.new
        (searches counts.new lengths.now symbols.now places.new sizes.new
        discs.new quotients.new current.new saved.new) }
{
    said_of(dispatch_steps::step::step(
        job, states, extents, checks, marks, sums, taps, held, counts, lengths, symbols, places,
        sizes, discs, quotients, current, saved,
    ))
}

#[unsafe(no_mangle)]
pub extern "C" fn tomkhadi_jobs_peek(
    job: usize,
    states: &[[u32; 3]; 8],
    extents: &[[usize; 3]; 8],
    checks: &[[u16; 8]; 8],
    marks: &[[u64; 4]; 8],
    sums: &[[u16; 512]; 8],
    held: &[[u64; 32]; 8],
    counts: &[[u16; 5]; 8],
    lengths: &[[u16; 8]; 8],
    symbols: &[[u16; 1152]; 8],
    places: &[[u16; 8]; 8],
    sizes: &[[u16; 8]; 8],
    discs: &[[u16; 8]; 8],
    quotients: &[[u16; 8]; 8],
    current: &[[u16; 144]; 8],
    saved: &[[u16; 1152]; 8],
) -> CPeeked
    ensures { JobsPeek job (heads states.now extents.now checks.now marks.now) sums.now
        held.now
        (searches counts.now lengths.now symbols.now places.now sizes.now
        discs.now quotients.now current.now saved.now) result }
{
    peeked_of(dispatch_slices::peek::peek(
        job, states, extents, checks, marks, sums, held, counts, lengths, symbols, places, sizes,
        discs, quotients, current, saved,
    ))
}

#[unsafe(no_mangle)]
pub extern "C" fn tomkhadi_jobs_turn(
    last: &mut usize,
    states: &mut [[u32; 3]; 8],
    extents: &mut [[usize; 3]; 8],
    checks: &mut [[u16; 8]; 8],
    marks: &mut [[u64; 4]; 8],
    sums: &[[u16; 512]; 8],
    taps: &mut [[u16; 65]; 8],
    held: &[[u64; 32]; 8],
    counts: &mut [[u16; 5]; 8],
    lengths: &[[u16; 8]; 8],
    symbols: &[[u16; 1152]; 8],
    places: &mut [[u16; 8]; 8],
    sizes: &mut [[u16; 8]; 8],
    discs: &mut [[u16; 8]; 8],
    quotients: &mut [[u16; 8]; 8],
    current: &mut [[u16; 144]; 8],
    saved: &mut [[u16; 1152]; 8],
) -> CTurned
    ensures { TurnGives (kept (heads states.old extents.old checks.old marks.old) sums.now
        taps.old held.now
        (searches counts.old lengths.now symbols.now places.old sizes.old
        discs.old quotients.old current.old saved.old) last.old)
        result
        (kept (heads states.new extents.new checks.new marks.new) sums.now taps.new
        held.now
        (searches counts.new lengths.now symbols.now places.new sizes.new
        discs.new quotients.new current.new saved.new) last.new) }
{
    let turned = dispatcher::turn::turn(
        last, states, extents, checks, marks, sums, taps, held, counts, lengths, symbols, places,
        sizes, discs, quotients, current, saved,
    );
    CTurned {
        job: turned.job,
        answer: said_of(turned.said),
    }
}
