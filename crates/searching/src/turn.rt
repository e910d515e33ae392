// A start and a step, with what they come to.
ghost use Rattle.std.specs.Prelude.{◌≡◌, true, List, ℕ, ◌<◌, get_or};
ghost use Rattle.frame.specs.DeclaredCells.{declared_by, nothing_declared};
ghost use Rattle.frame.specs.Shape.{is_shape};
ghost use Rattle.remaining.specs.Removable.{RemovableRows};
ghost use Rattle.searching.specs.Arriving.{StartDoes, StepDoes, Turnable};
ghost use Rattle.slices.specs.Synthesis.{synthesis};

use crate::arrive::{arrive, goes_on};
use crate::begin::{begin_left, begin_whole};
use frame::Shape;
use job::Answered;
use slices::advance::advance;

// With nothing declared. Each row has a check, so a search begun from all sums never ends at once, and where it has come to is not looked at.
pub fn start_whole(
    s: Shape,
    sums: &[u16; 512],
    counts: &mut [u16; 5],
    lengths: &mut [u16; 8],
    symbols: &mut [u16; 1152],
    places: &mut [u16; 8],
    sizes: &mut [u16; 8],
    discs: &mut [u16; 8],
    quotients: &mut [u16; 8],
    register: &mut [u16; 144],
    saved: &mut [u16; 1152],
) -> Answered
    requires s_value { is_shape s ≡ true }
    requires by_index { (k : ℕ) → get_or sums.now k 0 < 257 }
    ensures { (declared taps : List ℕ) → nothing_declared declared ≡ true → StartDoes s declared sums.now taps
        (synthesis counts.old lengths.old symbols.old places.old sizes.old discs.old
        quotients.old register.old saved.old)
        result taps
        (synthesis counts.new lengths.new symbols.new places.new sizes.new discs.new
        quotients.new register.new saved.new) }
{
    begin_whole(
        s, sums, counts, lengths, symbols, places, sizes, discs, quotients, register, saved,
    );
    goes_on(s)
}

// With the declared cells taken out: what is left may be nothing.
pub fn start_left(
    s: Shape,
    declared: &[u64; 32],
    sums: &[u16; 512],
    counts: &mut [u16; 5],
    lengths: &mut [u16; 8],
    symbols: &mut [u16; 1152],
    places: &mut [u16; 8],
    sizes: &mut [u16; 8],
    discs: &mut [u16; 8],
    quotients: &mut [u16; 8],
    register: &mut [u16; 144],
    saved: &mut [u16; 1152],
    taps: &mut [u16; 65],
) -> Answered
    requires { RemovableRows s (declared_by declared.now) sums.now }
    ensures { StartDoes s declared.now sums.now taps.old
        (synthesis counts.old lengths.old symbols.old places.old sizes.old discs.old
        quotients.old register.old saved.old)
        result taps.new
        (synthesis counts.new lengths.new symbols.new places.new sizes.new discs.new
        quotients.new register.new saved.new) }
{
    begin_left(
        s, declared, sums, counts, lengths, symbols, places, sizes, discs, quotients, register,
        saved,
    );
    arrive(
        s, declared, sums, counts, lengths, places, sizes, register, taps,
    )
}

pub fn step_from(
    s: Shape,
    declared: &[u64; 32],
    sums: &[u16; 512],
    counts: &mut [u16; 5],
    lengths: &[u16; 8],
    symbols: &[u16; 1152],
    places: &mut [u16; 8],
    sizes: &mut [u16; 8],
    discs: &mut [u16; 8],
    quotients: &mut [u16; 8],
    register: &mut [u16; 144],
    saved: &mut [u16; 1152],
    taps: &mut [u16; 65],
) -> Answered
    requires { Turnable s declared.now sums.now taps.old
        (synthesis counts.old lengths.now symbols.now places.old sizes.old discs.old quotients.old register.old saved.old) }
    ensures { StepDoes s declared.now sums.now taps.old
        (synthesis counts.old lengths.now symbols.now places.old sizes.old discs.old
        quotients.old register.old saved.old)
        result taps.new
        (synthesis counts.new lengths.now symbols.now places.new sizes.new discs.new
        quotients.new register.new saved.new) }
{
    advance(
        s.rows, counts, lengths, symbols, places, sizes, discs, quotients, register, saved,
    );
    arrive(
        s, declared, sums, counts, lengths, places, sizes, register, taps,
    )
}
