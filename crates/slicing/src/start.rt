// Starting to locate in slices: the frame is tested, its check sums are taken and kept, and the search for a register begins. The frame is not looked at again.
ghost use Rattle.slicing.specs.Slices.{StartDoes};
ghost use Rattle.heads.specs.Told.{LocatedRead, LocatedWhole};
ghost use Rattle.slices.specs.Synthesis.{synthesis};

use codec::sums::write_sums;
use erasures::cells::nothing;
use erasures::reading::{check_read, sums_read};
use heads::sound::counts_as_empty;
use heads::states::refuse;
use job::{Answered, Head};
use refusal::Refusal;
use searching::turn::start_left;
use shapes::symbols::check_frame;

// A frame of which nothing is declared.
fn start_whole(
    j: Head,
    sums: &mut [u16; 512],
    taps: &mut [u16; 65],
    held: &mut [u64; 32],
    counts: &mut [u16; 5],
    lengths: &mut [u16; 8],
    symbols: &mut [u16; 1152],
    places: &mut [u16; 8],
    sizes: &mut [u16; 8],
    discs: &mut [u16; 8],
    quotients: &mut [u16; 8],
    register: &mut [u16; 144],
    saved: &mut [u16; 1152],
    declared: &[u64; 32],
    frame: &[u16],
) -> Answered
    requires { LocatedWhole j declared.now }
    ensures { StartDoes j sums.old taps.old held.old
        (synthesis counts.old lengths.old symbols.old places.old sizes.old discs.old
        quotients.old register.old saved.old)
        declared.now frame.now result sums.new taps.new held.new
        (synthesis counts.new lengths.new symbols.new places.new sizes.new discs.new
        quotients.new register.new saved.new) }
{
    if let Err(why) = check_frame(j.shape, frame) {
        return refuse(j, why);
    }
    write_sums(j.shape, frame, sums);
    *held = *declared;
    searching::turn::start_whole(
        j.shape, sums, counts, lengths, symbols, places, sizes, discs, quotients, register, saved,
    )
}

// A frame with declared cells.
fn start_read(
    j: Head,
    sums: &mut [u16; 512],
    taps: &mut [u16; 65],
    held: &mut [u64; 32],
    counts: &mut [u16; 5],
    lengths: &mut [u16; 8],
    symbols: &mut [u16; 1152],
    places: &mut [u16; 8],
    sizes: &mut [u16; 8],
    discs: &mut [u16; 8],
    quotients: &mut [u16; 8],
    register: &mut [u16; 144],
    saved: &mut [u16; 1152],
    declared: &[u64; 32],
    frame: &[u16],
) -> Answered
    requires { LocatedRead j declared.now }
    ensures { StartDoes j sums.old taps.old held.old
        (synthesis counts.old lengths.old symbols.old places.old sizes.old discs.old
        quotients.old register.old saved.old)
        declared.now frame.now result sums.new taps.new held.new
        (synthesis counts.new lengths.new symbols.new places.new sizes.new discs.new
        quotients.new register.new saved.new) }
{
    if let Err(why) = check_read(j.shape, declared, frame) {
        return refuse(j, why);
    }
    *sums = sums_read(j.shape, declared, frame);
    *held = *declared;
    start_left(
        j.shape, declared, sums, counts, lengths, symbols, places, sizes, discs, quotients,
        register, saved, taps,
    )
}

pub fn start(
    j: Head,
    sums: &mut [u16; 512],
    taps: &mut [u16; 65],
    held: &mut [u64; 32],
    counts: &mut [u16; 5],
    lengths: &mut [u16; 8],
    symbols: &mut [u16; 1152],
    places: &mut [u16; 8],
    sizes: &mut [u16; 8],
    discs: &mut [u16; 8],
    quotients: &mut [u16; 8],
    register: &mut [u16; 144],
    saved: &mut [u16; 1152],
    declared: &[u64; 32],
    frame: &[u16],
) -> Answered
    ensures { StartDoes j sums.old taps.old held.old
        (synthesis counts.old lengths.old symbols.old places.old sizes.old discs.old
        quotients.old register.old saved.old)
        declared.now frame.now result sums.new taps.new held.new
        (synthesis counts.new lengths.new symbols.new places.new sizes.new discs.new
        quotients.new register.new saved.new) }
{
    if counts_as_empty(j) {
        return refuse(j, Refusal::Empty);
    }
    if nothing(declared) {
        start_whole(
            j, sums, taps, held, counts, lengths, symbols, places, sizes, discs, quotients,
            register, saved, declared, frame,
        )
    } else {
        start_read(
            j, sums, taps, held, counts, lengths, symbols, places, sizes, discs, quotients,
            register, saved, declared, frame,
        )
    }
}
