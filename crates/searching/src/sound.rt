// Whether the next step can be made of a job's arrays. What only the last step reads is looked at before the last step alone.
ghost use Rattle.std.specs.Prelude.{◌≡◌, true, List, [], ℕ, ◌<◌, get_or};
ghost use Rattle.frame.specs.Shape.{is_shape};
ghost use Rattle.job.specs.Job.{end_sound, step_sound};
ghost use Rattle.searching.specs.Arriving.{all_arrays};
ghost use Rattle.slices.specs.Synthesis.{synthesis, last_step_of, no_synthesis};

use erasures::cells::is_declarable;
use frame::Shape;
use shapes::symbols::all_below;
use slices::sound::is_sound;

#[tactic(auto, unfolding(job::specs::Job::end_sound))]
fn is_end_sound(s: Shape, sums: &[u16; 512], held: &[u64; 32]) -> bool
    requires { is_shape s ≡ true }
    ensures { result ≡ end_sound s (all_arrays sums.now [] held.now no_synthesis) }
{
    all_below(sums) && is_declarable(s, held)
}

// The next step of `count` sequences is the last one.
pub fn is_last(count: usize, counts: &[u16; 5]) -> bool
    requires counts_bound { get_or counts.now 2 0 < count }
    requires counts_bound_2 { get_or counts.now 1 0 < get_or counts.now 0 0 }
    ensures { result ≡ last_step_of count (synthesis counts.now [] [] [] [] [] [] [] []) }
{
    usize::from(counts[2]) == count - 1 && counts[1] == counts[0] - 1
}

pub fn is_step_sound(
    s: Shape,
    sums: &[u16; 512],
    held: &[u64; 32],
    counts: &[u16; 5],
    lengths: &[u16; 8],
    symbols: &[u16; 1152],
    places: &[u16; 8],
    sizes: &[u16; 8],
    discs: &[u16; 8],
    quotients: &[u16; 8],
    register: &[u16; 144],
    saved: &[u16; 1152],
) -> bool
    requires { is_shape s ≡ true }
    ensures { (taps : List ℕ) → result ≡ step_sound s (all_arrays sums.now taps held.now
        (synthesis counts.now lengths.now symbols.now places.now sizes.now discs.now
        quotients.now register.now saved.now)) }
{
    is_sound(
        s.rows, counts, lengths, symbols, places, sizes, discs, quotients, register, saved,
    ) && (!is_last(s.rows, counts) || is_end_sound(s, sums, held))
}
