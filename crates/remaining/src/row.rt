// What is left of the check sums of one row.
ghost use Rattle.std.specs.Prelude.{◌≡◌, ◌%◌, ◌≤◌, length, get_or};
ghost use Rattle.decoding.specs.Remaining.{remaining};
ghost use Rattle.lists.specs.Tabulate.{tabulate};
ghost use Rattle.remaining.specs.Multiples.{Totals, grown, Addable};
ghost use Rattle.remaining.specs.Removable.{Removable};

use columns::{Columns, size};
use field::narrow::product;
use polynomials::locator::locator_polynomial;

// Adds c times the `count` sums from `from` on to the totals.
fn add_multiple(totals: &mut [u32; 64], c: u16, sums: &[u16], from: usize, count: usize)
    requires { Addable totals.old c sums.now from count }
    ensures { Totals count (grown totals.old c sums.now from) totals.new }
{
    for j in 0..count {
        totals[j] += product(c, sums[from + j]);
    }
}

fn reduce(totals: &[u32; 64], left: &mut [u16])
    requires { length left.old ≤ 64 }
    ensures { left.new ≡ tabulate (length left.old) (λ j. get_or totals.now j 0 % 257) }
{
    for (j, l) in left.iter_mut().enumerate() {
        *l = (totals[j] % 257) as u16;
    }
}

// What is left of the sums when the columns of the set are taken out: each coefficient of its locator polynomial is multiplied with all sums that it meets, so
// that the compiler makes the entries side by side. 65 products of 256 and 256 fit a total, so that it is reduced once.
pub fn remaining(powers: &[u16; 256], set: Columns, sums: &[u16], left: &mut [u16])
    requires { Removable powers.now set sums.now left.old }
    ensures { left.new ≡ remaining set sums.now }
{
    let f = locator_polynomial(powers, set);
    let e = size(set);
    let n = left.len();
    let mut totals = [0u32; 64];
    // Not 0..=e, which ends in one of two ways, each with a proof of its own.
    for k in 0..e + 1 {
        add_multiple(&mut totals, f[k], sums, e - k, n);
    }
    reduce(&totals, left);
}
