// One step further. The arrays are lent one by one, as the C interface lends them.
ghost use Rattle.std.specs.Prelude.{◌≡◌, true, ◌≤◌};
ghost use Rattle.discrepancy.specs.Modulus.{WorkedOut};
ghost use Rattle.slices.specs.Synthesis.{synthesis, synthesis_sound, advanced};

use discrepancy::Modulus;
use register_step::single::single_step;

// 257 with what is worked out of it.
fn modulus() -> Modulus
    ensures { (result.p ≡ 257) × WorkedOut result }
{
    Modulus {
        p: 257,
        wide: 4278255360,
        reciprocal: 1095233372416,
        unit: 1,
        inverse: 65281,
    }
}

// The step that comes next, of `count` sequences. The last step of a round finishes it.
pub fn advance(
    count: usize,
    counts: &mut [u16; 5],
    lengths: &[u16; 8],
    symbols: &[u16; 1152],
    places: &mut [u16; 8],
    sizes: &mut [u16; 8],
    discs: &mut [u16; 8],
    quotients: &mut [u16; 8],
    taps: &mut [u16; 144],
    saved: &mut [u16; 1152],
)
    requires count_bound { count ≤ 8 }
    requires saved_value { synthesis_sound count
        (synthesis counts.old lengths.now symbols.now places.old sizes.old discs.old quotients.old taps.old saved.old) ≡ true }
    ensures { synthesis counts.new lengths.now symbols.now places.new sizes.new discs.new
        quotients.new taps.new saved.new
        ≡ advanced count (synthesis counts.old lengths.now symbols.now places.old sizes.old
        discs.old quotients.old taps.old saved.old) }
{
    let f = modulus();
    let longest = usize::from(counts[0]);
    let n = usize::from(counts[1]);
    let h = usize::from(counts[2]);
    let l = single_step(
        f,
        longest,
        symbols,
        h,
        usize::from(lengths[h]),
        n + 1,
        usize::from(counts[4]),
        places,
        sizes,
        discs,
        quotients,
        taps,
        saved,
    );
    counts[4] = l as u16;
    if h + 1 < count {
        counts[2] = (h + 1) as u16;
        return;
    }
    counts[1] = (n + 1) as u16;
    counts[2] = 0;
    counts[3] = l as u16;
}
