// The sequences backwards, as discrepancies read them.
ghost use Rattle.std.specs.Prelude.{◌≡◌, suc, ◌-◌, length, get_or};
ghost use Rattle.lists.specs.Tabulate.{tabulate};
ghost use Rattle.sequences.specs.Backwards.{Reversible, backwards_over};
ghost use Rattle.sequences.specs.Places.{sequences_at};

use crate::Order;

fn backwards(to: &mut [u16], s: &[u16])
    requires { length to.old ≡ length s.now }
    ensures { to.new ≡ tabulate (length s.now) (λ k. get_or s.now (length s.now - suc k) 0) }
{
    for (k, x) in to.iter_mut().enumerate() {
        *x = s[s.len() - 1 - k];
    }
}

// Each of the first sequences in its block.
pub fn all_backwards(order: Order, count: usize, symbols: &[u16], blocks: &mut [u16])
    requires { Reversible order count symbols.now × (length blocks.old ≡ 1152) }
    ensures { blocks.new ≡ backwards_over (sequences_at order count symbols.now) blocks.old }
{
    for h in 0..count {
        let a = usize::from(order.starts[h]);
        let size = usize::from(order.lengths[h]);
        let e = a + size;
        let at = h * 144;
        let to = at + size;
        backwards(&mut blocks[at..to], &symbols[a..e]);
    }
}
