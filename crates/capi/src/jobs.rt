// The calls on a job for C: the head by value, the arrays by pointer. The header makes of each a call on a job by pointer.
ghost use Rattle.std.specs.Prelude.{◌≡◌};
ghost use Rattle.capi.specs.Exports.{HeadShapes, HeadEncodes, HeadLocates, HeadRepairs, HeadStarts, HeadSteps, HeadPeeks};
ghost use Rattle.mirror.specs.Mirror.{mirror_of};
ghost use Rattle.job.specs.Job.{empty_head};
ghost use Rattle.slices.specs.Synthesis.{synthesis};

use calls::encode::encode;
use calls::locate::locate;
use calls::repair::repair;
use calls::shape::shape;
use heads::states::empty;
use mirror::answers::{answered_of, peeked_of, refusal_of, unfinished_of};
use mirror::head::{head_of, mirror_of};
use mirror::{CAnswered, CHead, CPeeked, CShaped};
use onward::go_on;
use slicing::next::next;
use slicing::peek::peek;
use slicing::start::start;

#[unsafe(no_mangle)]
pub extern "C" fn tomkhadi_head_empty() -> CHead
    ensures { result ≡ mirror_of empty_head }
{
    mirror_of(empty())
}

#[unsafe(no_mangle)]
pub extern "C" fn tomkhadi_head_shape(
    head: CHead,
    columns: usize,
    checks: &[u16],
    exponent: u32,
) -> CShaped
    ensures { HeadShapes head columns checks.now exponent result }
{
    let j = head_of(head);
    match shape(j, columns, checks, exponent) {
        Ok(shaped) => CShaped {
            refusal: 0,
            head: mirror_of(shaped),
        },
        Err(why) => CShaped {
            refusal: u32::from(why),
            head: mirror_of(j),
        },
    }
}

#[unsafe(no_mangle)]
pub extern "C" fn tomkhadi_head_encode(head: CHead, frame: &mut [u16]) -> u32
    ensures { HeadEncodes head frame.old result frame.new }
{
    refusal_of(encode(head_of(head), frame))
}

#[unsafe(no_mangle)]
pub extern "C" fn tomkhadi_head_locate(
    head: CHead,
    sums: &mut [u16; 512],
    taps: &mut [u16; 65],
    held: &mut [u64; 32],
    declared: &[u64; 32],
    frame: &[u16],
) -> CAnswered
    ensures { HeadLocates head sums.old taps.old held.old declared.now frame.now result
        sums.new taps.new held.new }
{
    answered_of(locate(head_of(head), sums, taps, held, declared, frame))
}

#[unsafe(no_mangle)]
pub extern "C" fn tomkhadi_head_repair(
    head: CHead,
    sums: &[u16; 512],
    held: &[u64; 32],
    frame: &mut [u16],
) -> CAnswered
    ensures { HeadRepairs head sums.now held.now frame.old result frame.new }
{
    answered_of(repair(head_of(head), sums, held, frame))
}

#[unsafe(no_mangle)]
pub extern "C" fn tomkhadi_head_start(
    head: CHead,
    sums: &mut [u16; 512],
    taps: &mut [u16; 65],
    held: &mut [u64; 32],
    counts: &mut [u16; 5],
    lengths: &mut [u16; 8],
    symbols: &mut [u16; 1152],
    places: &mut [u16; 8],
    sizes: &mut [u16; 8],
    discs: &mut [u16; 8],
    quotients: &mut [u16; 8],
    current: &mut [u16; 144],
    saved: &mut [u16; 1152],
    declared: &[u64; 32],
    frame: &[u16],
) -> CAnswered
    ensures { HeadStarts head sums.old taps.old held.old
        (synthesis counts.old lengths.old symbols.old places.old sizes.old discs.old
        quotients.old current.old saved.old)
        declared.now frame.now result sums.new taps.new held.new
        (synthesis counts.new lengths.new symbols.new places.new sizes.new discs.new
        quotients.new current.new saved.new) }
{
    answered_of(start(
        head_of(head),
        sums,
        taps,
        held,
        counts,
        lengths,
        symbols,
        places,
        sizes,
        discs,
        quotients,
        current,
        saved,
        declared,
        frame,
    ))
}

// All steps but the last one go on where they are, with no head taken apart and made anew.
#[unsafe(no_mangle)]
pub extern "C" fn tomkhadi_head_step(
    head: CHead,
    sums: &[u16; 512],
    taps: &mut [u16; 65],
    held: &[u64; 32],
    counts: &mut [u16; 5],
    lengths: &[u16; 8],
    symbols: &[u16; 1152],
    places: &mut [u16; 8],
    sizes: &mut [u16; 8],
    discs: &mut [u16; 8],
    quotients: &mut [u16; 8],
    current: &mut [u16; 144],
    saved: &mut [u16; 1152],
) -> CAnswered
    ensures { HeadSteps head sums.now taps.old held.now
        (synthesis counts.old lengths.now symbols.now places.old sizes.old discs.old
        quotients.old current.old saved.old)
        result taps.new
        (synthesis counts.new lengths.now symbols.now places.new sizes.new discs.new
        quotients.new current.new saved.new) }
{
    if go_on(
        head.phase == 3,
        head.rows,
        head.columns,
        &head.checks,
        head.exponent,
        counts,
        lengths,
        symbols,
        places,
        sizes,
        discs,
        quotients,
        current,
        saved,
    ) {
        return unfinished_of(head);
    }
    answered_of(next(
        head_of(head),
        sums,
        taps,
        held,
        counts,
        lengths,
        symbols,
        places,
        sizes,
        discs,
        quotients,
        current,
        saved,
    ))
}

#[unsafe(no_mangle)]
pub extern "C" fn tomkhadi_head_peek(
    head: CHead,
    sums: &[u16; 512],
    held: &[u64; 32],
    counts: &[u16; 5],
    lengths: &[u16; 8],
    symbols: &[u16; 1152],
    places: &[u16; 8],
    sizes: &[u16; 8],
    discs: &[u16; 8],
    quotients: &[u16; 8],
    current: &[u16; 144],
    saved: &[u16; 1152],
) -> CPeeked
    ensures { HeadPeeks head sums.now held.now
        (synthesis counts.now lengths.now symbols.now places.now sizes.now discs.now
        quotients.now current.now saved.now) result }
{
    peeked_of(peek(
        head_of(head),
        sums,
        held,
        counts,
        lengths,
        symbols,
        places,
        sizes,
        discs,
        quotients,
        current,
        saved,
    ))
}
