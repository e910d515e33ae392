// A step that is not the last one, and so leaves the head of the job as it is. What its caller holds of the head is lent in parts, and answered is whether it is
// made: no struct goes by value, which takes longer than most steps.
#![tactic(auto)]

ghost use Rattle.onward.specs.GoingOn.{GoesOn};
ghost use Rattle.slices.specs.Synthesis.{synthesis};

use searching::sound::is_last;
use shapes::shape::in_range;
use slices::advance::advance;
use slices::sound::is_sound;

// The next step, where the job is unfinished and the step is not the last one. Else nothing is changed.
pub fn go_on(
    unfinished: bool,
    rows: usize,
    columns: usize,
    checks: &[u16; 8],
    exponent: u32,
    counts: &mut [u16; 5],
    lengths: &[u16; 8],
    symbols: &[u16; 1152],
    places: &mut [u16; 8],
    sizes: &mut [u16; 8],
    discs: &mut [u16; 8],
    quotients: &mut [u16; 8],
    register: &mut [u16; 144],
    saved: &mut [u16; 1152],
) -> bool
    ensures { GoesOn unfinished (record { rows = rows; columns = columns; checks = checks.now; exponent = exponent })
        (synthesis counts.old lengths.now symbols.now places.old sizes.old discs.old
        quotients.old register.old saved.old)
        result
        (synthesis counts.new lengths.now symbols.now places.new sizes.new discs.new
        quotients.new register.new saved.new) }
{
    if !unfinished {
        return false;
    }
    if !in_range(rows, columns, checks, exponent) {
        return false;
    }
    if !is_sound(
        rows, counts, lengths, symbols, places, sizes, discs, quotients, register, saved,
    ) {
        return false;
    }
    if is_last(rows, counts) {
        return false;
    }
    advance(
        rows, counts, lengths, symbols, places, sizes, discs, quotients, register, saved,
    );
    true
}
