// Check sums of a row in four stages: a number-theoretic transform to base 4 of 256 points, of which the first 64 are asked. In each stage every four columns
// that lie 64 apart, each times its factor, become four others, for four classes of exponents. A row of 256 columns and 64 sums takes 1,024 products instead
// of 16,384.
ghost use Rattle.std.specs.Prelude.{◌≡◌, ◌≤◌, ◌<◌, length};
ghost use Rattle.transform.specs.Stages.{Staging, reversal, weighed_sums};

use butterflies::stage::{butterflies, last};
use lists::arrays::padded;

// The digits of c to base 4 in the other order.
fn reversed(c: usize) -> usize
    requires { c < 64 }
    ensures equals { result ≡ reversal c }
    ensures below { result < 64 }
{
    c / 16 + 4 * (c / 4 % 4) + 16 * (c % 4)
}

// The values at 3^0, 3^1, .. of the row x with each symbol times its factor, as many as there are places for them.
pub fn staged_sums(t: &[u16], x: &[u16], sums: &mut [u16])
    requires { Staging t.now × (length x.now ≤ 256) × (length sums.old ≤ 64) }
    ensures { sums.new ≡ weighed_sums t.now (length sums.old) x.now }
{
    let mut y = padded::<256>(x);
    let mut z = [0u16; 256];
    butterflies(&t[0..256], &y, &mut z);
    butterflies(&t[256..512], &z, &mut y);
    butterflies(&t[512..768], &y, &mut z);
    let v = last(&t[768..1024], &z);
    for (k, sum) in sums.iter_mut().enumerate() {
        *sum = v[reversed(k)];
    }
}
