// Locating from check sums: by the shortest register of what is left of them.
ghost use Rattle.std.specs.Prelude.{◌≡◌, List, ℕ};
ghost use Rattle.from_register.specs.Register.{Locatable, after};
ghost use Rattle.locating.specs.FromSums.{from_sums};
ghost use Rattle.job.specs.Answers.{answered_outcome};
ghost use Rattle.job.specs.Job.{Arrays, with_taps, with_found};

use crate::finding::register_of;
use frame::Shape;
use from_register::locate_by;
use job::Answered;

// `none` tells that nothing is declared.
pub fn locate_from(
    s: Shape,
    none: bool,
    declared: &[u64; 32],
    sums: &[u16; 512],
    taps: &mut [u16; 65],
) -> Answered
    requires { Locatable s none declared.now sums.now }
    ensures { (a : Arrays) (f : List ℕ) → answered_outcome result
        (with_found a (after result.reply a.sums sums.now) taps.new (after result.reply a.declared declared.now)) f
        ≡ from_sums s (with_taps a taps.old) declared.now sums.now f }
{
    let mut register = [0u16; 65];
    let found = register_of(s, none, declared, sums, &mut register);
    locate_by(
        s,
        none,
        declared,
        sums,
        found.length,
        found.alone,
        &register,
        taps,
    )
}
