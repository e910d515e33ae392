// A step (n, h) of Algorithm 4 by itself, to which no array of the modulus is lent: it is made where the register changes, which it does at few steps where few
// columns are damaged. Kept as a list of arrays: the C interface lends them one by one.
ghost use Rattle.std.specs.Prelude.{◌≡◌};
ghost use Rattle.discrepancy.specs.Discrepancies.{sequence_in};
ghost use Rattle.discrepancy.specs.Modulus.{WorkedOut};
ghost use Rattle.register_step.specs.Parts.{Steppable, parts, step_parts};

use crate::changing::change;
use discrepancy::Modulus;
use discrepancy::due::due;
use discrepancy::sums::residue;

// The step, and the length of the register after it.
pub fn single_step(
    f: Modulus,
    longest: usize,
    symbols: &[u16; 1152],
    h: usize,
    long: usize,
    n: usize,
    l: usize,
    places: &mut [u16; 8],
    sizes: &mut [u16; 8],
    discs: &mut [u16; 8],
    quotients: &mut [u16; 8],
    taps: &mut [u16; 144],
    saved: &mut [u16; 1152],
) -> usize
    requires worked_out { WorkedOut f }
    requires steppable { Steppable f.p longest h long n symbols.now (parts l places.old sizes.old discs.old quotients.old taps.old saved.old) }
    ensures { parts result places.new sizes.new discs.new quotients.new taps.new saved.new
        ≡ step_parts f.p longest (sequence_in symbols.now h long) n h
        (parts l places.old sizes.old discs.old quotients.old taps.old saved.old) }
{
    let sum = due(f, longest, l, taps, symbols, h, long, n);
    let d = residue(f, sum);
    if d == 0 {
        return l;
    }
    let moduli = [f.p as u16; 144];
    change(
        f, &moduli, n, h, d, sum, l, places, sizes, discs, quotients, taps, saved,
    )
}
