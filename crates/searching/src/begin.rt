// The arrays before the first step, of what is left of held check sums.
// The arrays of a search are lent one by one, as the C interface lends them (docs/DESIGN-PASS.md, point 5).
ghost use Rattle.std.specs.Prelude.{◌≡◌, true, ℕ, ◌<◌, get_or, take};
ghost use Rattle.decoding.specs.Remaining.{all_remaining};
ghost use Rattle.frame.specs.DeclaredCells.{declared_by};
ghost use Rattle.frame.specs.Frame.{held_sequences};
ghost use Rattle.frame.specs.Shape.{is_shape};
ghost use Rattle.register.specs.Sequences.{split};
ghost use Rattle.remaining.specs.Removable.{RemovableRows};
ghost use Rattle.searching.specs.Beginning.{Beginnable};
ghost use Rattle.slices.specs.Synthesis.{synthesis, begun};

use frame::Shape;
use locating::finding::sum_count;
use remaining::rows::all_remaining;
use slices::begin::begin;

// Of the first sequences, `all` symbols one sequence after the other.
fn begin_lent(
    rows: usize,
    long: [u16; 8],
    all: usize,
    told: &[u16],
    counts: &mut [u16; 5],
    lengths: &mut [u16; 8],
    symbols: &mut [u16; 1152],
    places: &mut [u16; 8],
    sizes: &mut [u16; 8],
    discs: &mut [u16; 8],
    quotients: &mut [u16; 8],
    register: &mut [u16; 144],
    saved: &mut [u16; 1152],
)
    requires { Beginnable rows long all told.now }
    ensures { synthesis counts.new lengths.new symbols.new places.new sizes.new discs.new
        quotients.new register.new saved.new
        ≡ begun (split (take rows long) (take all told.now))
        (synthesis counts.old lengths.old symbols.old places.old sizes.old discs.old
        quotients.old register.old saved.old) }
{
    begin(
        &long[..rows],
        &told[..all],
        counts,
        lengths,
        symbols,
        places,
        sizes,
        discs,
        quotients,
        register,
        saved,
    );
}

// Of the sums as they are held: with nothing declared, nothing is taken out.
pub fn begin_whole(
    s: Shape,
    sums: &[u16; 512],
    counts: &mut [u16; 5],
    lengths: &mut [u16; 8],
    symbols: &mut [u16; 1152],
    places: &mut [u16; 8],
    sizes: &mut [u16; 8],
    discs: &mut [u16; 8],
    quotients: &mut [u16; 8],
    register: &mut [u16; 144],
    saved: &mut [u16; 1152],
)
    requires s_value { is_shape s ≡ true }
    requires by_index { (k : ℕ) → get_or sums.now k 0 < 257 }
    ensures { synthesis counts.new lengths.new symbols.new places.new sizes.new discs.new
        quotients.new register.new saved.new
        ≡ begun (held_sequences s sums.now)
        (synthesis counts.old lengths.old symbols.old places.old sizes.old discs.old
        quotients.old register.old saved.old) }
{
    begin_lent(
        s.rows,
        s.checks,
        sum_count(s),
        sums,
        counts,
        lengths,
        symbols,
        places,
        sizes,
        discs,
        quotients,
        register,
        saved,
    );
}

// Of what is left when the declared cells are taken out.
pub fn begin_left(
    s: Shape,
    declared: &[u64; 32],
    sums: &[u16; 512],
    counts: &mut [u16; 5],
    lengths: &mut [u16; 8],
    symbols: &mut [u16; 1152],
    places: &mut [u16; 8],
    sizes: &mut [u16; 8],
    discs: &mut [u16; 8],
    quotients: &mut [u16; 8],
    register: &mut [u16; 144],
    saved: &mut [u16; 1152],
)
    requires { RemovableRows s (declared_by declared.now) sums.now }
    ensures { synthesis counts.new lengths.new symbols.new places.new sizes.new discs.new
        quotients.new register.new saved.new
        ≡ begun (all_remaining s (declared_by declared.now) (held_sequences s sums.now))
        (synthesis counts.old lengths.old symbols.old places.old sizes.old discs.old
        quotients.old register.old saved.old) }
{
    let left = all_remaining(s, declared, sums);
    begin_lent(
        s.rows,
        left.lengths,
        left.count,
        &left.symbols,
        counts,
        lengths,
        symbols,
        places,
        sizes,
        discs,
        quotients,
        register,
        saved,
    );
}
