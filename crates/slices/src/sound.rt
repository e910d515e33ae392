// Whether a step can be made of arrays that nobody started. The arrays are lent one by one, as the C interface lends them.
// Where a test does not read an array its contract says [].
ghost use Rattle.std.specs.Prelude.{◌≡◌, true, [], ◌*◌, ◌%◌, ◌≤◌, ◌<◌, eqb, get_or};
ghost use Rattle.slices.specs.Synthesis.{synthesis, counts_sound, saved_sound, taps_sound, symbols_sound, synthesis_sound};

use sequences::every::every;
use sequences::zeros::all_zero;

fn are_inverse(quotient: u16, disc: u16) -> bool
    requires { quotient < 257 }
    ensures { result ≡ eqb (quotient * disc % 257) 1 }
{
    u32::from(quotient) * u32::from(disc) % 257 == 1
}

#[tactic(auto, unfolding(crate::specs::Synthesis::counts_sound))]
fn counts_are_sound(count: usize, counts: &[u16; 5], lengths: &[u16; 8]) -> bool
    requires { count ≤ 8 }
    ensures { result ≡ counts_sound count (synthesis counts.now lengths.now [] [] [] [] [] [] []) }
{
    let longest = counts[0];
    let n = counts[1];
    longest <= 64
        && n < longest
        && usize::from(counts[2]) < count
        && counts[4] <= n + 1
        && every(lengths, |m| m <= longest)
}

// What is saved for the sequence of the next step.
#[tactic(auto, unfolding(crate::specs::Synthesis::saved_sound))]
fn saved_is_sound(
    counts: &[u16; 5],
    lengths: &[u16; 8],
    places: &[u16; 8],
    sizes: &[u16; 8],
    discs: &[u16; 8],
    quotients: &[u16; 8],
    saved: &[u16; 1152],
) -> bool
    requires { counts_sound 8 (synthesis counts.now lengths.now [] [] [] [] [] [] []) ≡ true }
    ensures { result ≡ saved_sound (synthesis counts.now lengths.now [] places.now sizes.now discs.now
        quotients.now [] saved.now) }
{
    let h = usize::from(counts[2]);
    prove!(h < 8);
    let place = places[h];
    let size = sizes[h];
    let quotient = quotients[h];
    let end = h * 144 + usize::from(size) + 1;
    size <= place
        && place <= u16::max(counts[1], counts[0] - lengths[h])
        && quotient <= 256
        && are_inverse(quotient, discs[h])
        && all_zero(&saved[end..end + 8])
}

#[tactic(auto, unfolding(crate::specs::Synthesis::taps_sound))]
fn taps_are_sound(counts: &[u16; 5], taps: &[u16; 144]) -> bool
    requires { get_or counts.now 4 0 ≤ 64 }
    ensures { result ≡ taps_sound (synthesis counts.now [] [] [] [] [] [] taps.now []) }
{
    let end = usize::from(counts[4]) + 1;
    taps[0] == 1 && every(taps, |t| t <= 256) && all_zero(&taps[end..end + 8])
}

// Read are the symbols that the next step sums, unless nothing is asked for at it.
#[tactic(auto, unfolding(crate::specs::Synthesis::symbols_sound))]
fn symbols_are_sound(counts: &[u16; 5], lengths: &[u16; 8], symbols: &[u16; 1152]) -> bool
    requires { counts_sound 8 (synthesis counts.now lengths.now [] [] [] [] [] [] []) ≡ true }
    ensures { result ≡ symbols_sound (synthesis counts.now lengths.now symbols.now [] [] [] [] [] []) }
{
    let longest = usize::from(counts[0]);
    let n = usize::from(counts[1]);
    let h = usize::from(counts[2]);
    prove!(h < 8);
    let l = usize::from(counts[4]);
    let first = h * 144 + (longest - (n + 1));
    n + 1 <= l + (longest - usize::from(lengths[h]))
        || every(&symbols[first..first + l + 1], |s| s <= 256)
}

// The numbers first: the places that are read hang on them.
pub fn is_sound(
    count: usize,
    counts: &[u16; 5],
    lengths: &[u16; 8],
    symbols: &[u16; 1152],
    places: &[u16; 8],
    sizes: &[u16; 8],
    discs: &[u16; 8],
    quotients: &[u16; 8],
    taps: &[u16; 144],
    saved: &[u16; 1152],
) -> bool
    requires { count ≤ 8 }
    ensures { result ≡ synthesis_sound count (synthesis counts.now lengths.now symbols.now places.now
        sizes.now discs.now quotients.now taps.now saved.now) }
{
    if !counts_are_sound(count, counts, lengths) {
        return false;
    }
    saved_is_sound(counts, lengths, places, sizes, discs, quotients, saved)
        && taps_are_sound(counts, taps)
        && symbols_are_sound(counts, lengths, symbols)
}
