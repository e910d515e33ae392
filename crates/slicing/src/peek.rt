// The length of the register after the last finished round of a locate in slices. Nothing is written.
ghost use Rattle.slicing.specs.Slices.{PeekDoes};
ghost use Rattle.slices.specs.Synthesis.{synthesis};

use crate::unfinished::counts_as_unfinished;
use heads::sound::counts_as_empty;
use job::Head;
use refusal::Refusal;

pub fn peek(
    j: Head,
    sums: &[u16; 512],
    held: &[u64; 32],
    counts: &[u16; 5],
    lengths: &[u16; 8],
    symbols: &[u16; 1152],
    places: &[u16; 8],
    sizes: &[u16; 8],
    discs: &[u16; 8],
    quotients: &[u16; 8],
    register: &[u16; 144],
    saved: &[u16; 1152],
) -> Result<usize, Refusal>
    ensures { PeekDoes j sums.now held.now
        (synthesis counts.now lengths.now symbols.now places.now sizes.now discs.now
        quotients.now register.now saved.now)
        result }
{
    if counts_as_empty(j) {
        return Err(Refusal::Empty);
    }
    if !counts_as_unfinished(
        j, sums, held, counts, lengths, symbols, places, sizes, discs, quotients, register, saved,
    ) {
        return Err(Refusal::NotUnfinished);
    }
    Ok(usize::from(counts[3]))
}
