// Locating a frame of which the check sums are taken: by these, and by what its cells show (SPECIFICATION.md, "Jobs").
#![tactic(auto)]

ghost use Rattle.std.specs.Prelude.{◌≡◌};
ghost use Rattle.job.specs.Answers.{answered_outcome};
ghost use Rattle.job.specs.Job.{Arrays, with_found};
ghost use Rattle.located_frames.specs.Seeable.{Seeable};
ghost use Rattle.locating.specs.FromSums.{seen_from};

use frame::Shape;
use heads::states::{refuse, shaped};
use job::{Answered, Progress};
use locating::from_sums::locate_from;
use refusal::Refusal;
use uniform::mended::mends_uniform;

// `none` tells that nothing is declared. The arrays are written where nothing is refused: taps that are written before the cells are looked at are put back.
pub fn locate_frame(
    s: Shape,
    none: bool,
    declared: &[u64; 32],
    summed: &[u16; 512],
    frame: &[u16],
    sums: &mut [u16; 512],
    taps: &mut [u16; 65],
    held: &mut [u64; 32],
) -> Answered
    requires { Seeable s none declared.now summed.now frame.now }
    ensures { (a : Arrays) → answered_outcome result (with_found a sums.new taps.new held.new) frame.now
        ≡ seen_from s (with_found a sums.old taps.old held.old) declared.now summed.now
        frame.now }
{
    let before = *taps;
    let answer = locate_from(s, none, declared, summed, taps);
    match answer.reply {
        Ok(Progress::Columns(_)) => {
            if mends_uniform(s, declared, answer.columns, frame) {
                *taps = before;
                return refuse(shaped(s), Refusal::NoFrame);
            }
            *sums = *summed;
            *held = *declared;
            answer
        }
        Ok(Progress::Unfinished) => answer,
        Err(_) => answer,
    }
}
