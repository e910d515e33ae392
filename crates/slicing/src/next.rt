// One step of a locate in slices. The last step locates by the register that was found.
ghost use Rattle.slicing.specs.Slices.{NextDoes};
ghost use Rattle.slices.specs.Synthesis.{synthesis};

use crate::unfinished::counts_as_unfinished;
use heads::sound::counts_as_empty;
use heads::states::refuse;
use job::{Answered, Head};
use refusal::Refusal;
use searching::turn::step_from;

pub fn next(
    j: Head,
    sums: &[u16; 512],
    taps: &mut [u16; 65],
    held: &[u64; 32],
    counts: &mut [u16; 5],
    lengths: &[u16; 8],
    symbols: &[u16; 1152],
    places: &mut [u16; 8],
    sizes: &mut [u16; 8],
    discs: &mut [u16; 8],
    quotients: &mut [u16; 8],
    register: &mut [u16; 144],
    saved: &mut [u16; 1152],
) -> Answered
    ensures { NextDoes j sums.now taps.old held.now
        (synthesis counts.old lengths.now symbols.now places.old sizes.old discs.old
        quotients.old register.old saved.old)
        result taps.new
        (synthesis counts.new lengths.now symbols.now places.new sizes.new discs.new
        quotients.new register.new saved.new) }
{
    if counts_as_empty(j) {
        return refuse(j, Refusal::Empty);
    }
    if !counts_as_unfinished(
        j, sums, held, counts, lengths, symbols, places, sizes, discs, quotients, register, saved,
    ) {
        return refuse(j, Refusal::NotUnfinished);
    }
    step_from(
        j.shape, held, sums, counts, lengths, symbols, places, sizes, discs, quotients, register,
        saved, taps,
    )
}
