// The discrepancy that is due at a step (n, h) of Algorithm 4.
ghost use Rattle.std.specs.Prelude.{◌≡◌, ◌%◌};
ghost use Rattle.discrepancy.specs.Discrepancies.{Ending, InReach, Loose, due_at, sequence_in};
ghost use Rattle.discrepancy.specs.Modulus.{WorkedOut};

use crate::Modulus;
use crate::sums::sum_at;

// What stands for the discrepancy at (n, h) of a register of length l, or for 0 where nothing is asked for. Sequence h, `long` symbols, stands backwards in its
// block of the symbols.
pub fn due(
    f: Modulus,
    longest: usize,
    l: usize,
    taps: &[u16; 144],
    symbols: &[u16; 1152],
    h: usize,
    long: usize,
    n: usize,
) -> u32
    requires worked_out { WorkedOut f }
    requires ending { Ending f.p l taps.now }
    requires in_reach { InReach f.p longest l h long n symbols.now }
    ensures p_value { result % f.p ≡ due_at f.p longest l taps.now (sequence_in symbols.now h long) n }
    ensures loose { Loose f.p result }
{
    let gap = longest - long;
    if n <= l + gap {
        return 0;
    }
    sum_at(f, l, taps, symbols, h * 144 + (longest - n))
}
