// The arrays before the first step. They are lent one by one, as the C interface lends them.
ghost use Rattle.std.specs.Prelude.{◌≡◌, ◌≤◌, length};
ghost use Rattle.register.specs.Sequences.{split};
ghost use Rattle.slices.specs.Lent.{Lent, lengths_of};
ghost use Rattle.slices.specs.Synthesis.{synthesis, begun, cleared_over};

use ends::start;
use lists::arrays::padded;
use sequences::Order;
use sequences::backwards::all_backwards;
use sequences::check::longest;
use sequences::sort::by_length;

// The lengths of the first sequences, and 0 for those that there are not.
fn lengths_of(order: Order, count: usize) -> [u16; 8]
    requires { count ≤ 8 }
    ensures { result ≡ lengths_of order count }
{
    padded(&order.lengths[..count])
}

// Only the front of each block: no step reads more of a block that was never kept.
fn clear(saved: &mut [u16])
    requires { length saved.old ≡ 1152 }
    ensures { saved.new ≡ cleared_over saved.old }
{
    for h in 0..8 {
        let a = h * 144;
        saved[a..a + 16].fill(0);
    }
}

// The arrays before the first step, for the sequences lent.
pub fn begin(
    lengths: &[u16],
    symbols: &[u16],
    counts: &mut [u16; 5],
    sorted: &mut [u16; 8],
    blocks: &mut [u16; 1152],
    places: &mut [u16; 8],
    sizes: &mut [u16; 8],
    discs: &mut [u16; 8],
    quotients: &mut [u16; 8],
    taps: &mut [u16; 144],
    saved: &mut [u16; 1152],
)
    requires { Lent lengths.now symbols.now }
    ensures { synthesis counts.new sorted.new blocks.new places.new sizes.new discs.new
        quotients.new taps.new saved.new
        ≡ begun (split lengths.now symbols.now)
        (synthesis counts.old sorted.old blocks.old places.old sizes.old discs.old
        quotients.old taps.old saved.old) }
{
    let count = lengths.len();
    let most = longest(lengths);
    let order = by_length(lengths, symbols);
    let long = lengths_of(order, count);
    all_backwards(order, count, symbols, blocks);
    clear(saved);
    *counts = [most as u16, 0, 0, 0, 0];
    *sorted = long;
    *places = start(most, &long, 8);
    *sizes = [0; 8];
    *discs = [1; 8];
    *quotients = [1; 8];
    *taps = [0; 144];
    taps[0] = 1;
}
