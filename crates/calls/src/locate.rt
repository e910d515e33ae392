// Locating: the frame is tested, its check sums are taken, and the columns are located from these and its cells. Where nothing is declared, as it is most
// often, the frame is looked at as it stands; else it is read with 0 in the declared cells.
ghost use Rattle.calls.specs.Whole.{LocateDoes};
ghost use Rattle.heads.specs.Told.{LocatedRead, LocatedWhole};

use codec::sums::frame_sums;
use erasures::cells::nothing;
use erasures::reading::{check_read, sums_read};
use heads::sound::counts_as_empty;
use heads::states::refuse;
use job::{Answered, Head};
use located_frames::locate_frame;
use refusal::Refusal;
use shapes::symbols::check_frame;

// A frame of which nothing is declared.
fn locate_whole(
    j: Head,
    sums: &mut [u16; 512],
    taps: &mut [u16; 65],
    held: &mut [u64; 32],
    declared: &[u64; 32],
    frame: &[u16],
) -> Answered
    requires { LocatedWhole j declared.now }
    ensures { LocateDoes j sums.old taps.old held.old declared.now frame.now result
        sums.new taps.new held.new }
{
    if let Err(why) = check_frame(j.shape, frame) {
        return refuse(j, why);
    }
    let summed = frame_sums(j.shape, frame);
    locate_frame(j.shape, true, declared, &summed, frame, sums, taps, held)
}

// A frame with declared cells.
fn locate_read(
    j: Head,
    sums: &mut [u16; 512],
    taps: &mut [u16; 65],
    held: &mut [u64; 32],
    declared: &[u64; 32],
    frame: &[u16],
) -> Answered
    requires { LocatedRead j declared.now }
    ensures { LocateDoes j sums.old taps.old held.old declared.now frame.now result
        sums.new taps.new held.new }
{
    if let Err(why) = check_read(j.shape, declared, frame) {
        return refuse(j, why);
    }
    let read = sums_read(j.shape, declared, frame);
    locate_frame(j.shape, false, declared, &read, frame, sums, taps, held)
}

// The arrays are written where nothing is refused.
pub fn locate(
    j: Head,
    sums: &mut [u16; 512],
    taps: &mut [u16; 65],
    held: &mut [u64; 32],
    declared: &[u64; 32],
    frame: &[u16],
) -> Answered
    ensures { LocateDoes j sums.old taps.old held.old declared.now frame.now result
        sums.new taps.new held.new }
{
    if counts_as_empty(j) {
        return refuse(j, Refusal::Empty);
    }
    if nothing(declared) {
        locate_whole(j, sums, taps, held, declared, frame)
    } else {
        locate_read(j, sums, taps, held, declared, frame)
    }
}
