// The change of what is kept of a state by a discrepancy. Kept as a list of arrays: the C interface lends them one by one, and so they come from `single_step`.
ghost use Rattle.std.specs.Prelude.{◌≡◌, ◌%◌};
ghost use Rattle.discrepancy.specs.Discrepancies.{Loose};
ghost use Rattle.discrepancy.specs.Modulus.{WorkedOut, Moduli};
ghost use Rattle.register_step.specs.Parts.{Changeable, parts, changed_parts};

use discrepancy::Modulus;
use field::residue::quotient;
use reduction::reduce::{reduce, reduce_keeping};

// The change by a discrepancy d at (n, h), for which `sum` stands, and the length of the register after it. No code reads `discs`: the state of the definition
// is read off it.
pub fn change(
    f: Modulus,
    moduli: &[u16; 144],
    n: usize,
    h: usize,
    d: u32,
    sum: u32,
    l: usize,
    places: &mut [u16; 8],
    sizes: &mut [u16; 8],
    discs: &mut [u16; 8],
    quotients: &mut [u16; 8],
    taps: &mut [u16; 144],
    saved: &mut [u16; 1152],
) -> usize
    requires worked_out { WorkedOut f }
    requires moduli { Moduli f.p moduli.now }
    requires loose { Loose f.p sum × (sum % f.p ≡ d) }
    requires changeable { Changeable f.p n h d (parts l places.old sizes.old discs.old quotients.old taps.old saved.old) }
    ensures { parts result places.new sizes.new discs.new quotients.new taps.new saved.new
        ≡ changed_parts f.p n h d
        (parts l places.old sizes.old discs.old quotients.old taps.old saved.old) }
{
    let place = usize::from(places[h]);
    let size = usize::from(sizes[h]);
    let e = n - place;
    if n + size <= place + l {
        reduce(f, moduli, taps, sum, quotients[h], e, size, saved, h);
        return l;
    }
    reduce_keeping(f, moduli, taps, sum, quotients[h], e, size, saved, h);
    places[h] = n as u16;
    sizes[h] = l as u16;
    discs[h] = d as u16;
    quotients[h] = quotient(f.unit, d, f.p, f.reciprocal) as u16;
    n + size - place
}
