// Which jobs are unfinished: one with arrays of which no step can be made, made by nobody's call, counts as shaped.
ghost use Rattle.std.specs.Prelude.{◌≡◌, false, List, ℕ};
ghost use Rattle.job.specs.Job.{beside, counts_empty, is_unfinished};
ghost use Rattle.searching.specs.Arriving.{all_arrays};
ghost use Rattle.slices.specs.Synthesis.{synthesis};

use heads::states::is_unfinished;
use job::Head;
use searching::sound::is_step_sound;

// The taps play no part.
pub fn counts_as_unfinished(
    j: Head,
    sums: &[u16; 512],
    held: &[u64; 32],
    counts: &[u16; 5],
    lengths: &[u16; 8],
    symbols: &[u16; 1152],
    places: &[u16; 8],
    sizes: &[u16; 8],
    discs: &[u16; 8],
    quotients: &[u16; 8],
    register: &[u16; 144],
    saved: &[u16; 1152],
) -> bool
    requires { counts_empty j ≡ false }
    ensures { (taps : List ℕ) → result ≡ is_unfinished (beside j (all_arrays sums.now taps held.now
        (synthesis counts.now lengths.now symbols.now places.now sizes.now discs.now
        quotients.now register.now saved.now))) }
{
    is_unfinished(j.phase)
        && is_step_sound(
            j.shape, sums, held, counts, lengths, symbols, places, sizes, discs, quotients,
            register, saved,
        )
}
