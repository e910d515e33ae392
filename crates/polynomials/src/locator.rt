// The locator polynomial of a set of columns: the product of 1 - 3^i z over its columns i.
ghost use Rattle.std.specs.Prelude.{◌≡◌, ℕ, ◌≤◌, length, get_or};
ghost use Rattle.field257.specs.Table.{table};
ghost use Rattle.columns.specs.Columns.{members};
ghost use Rattle.field257.specs.LocatorPolynomial.{locator_polynomial};

use crate::factor::multiply;
use columns::Columns;
use field257::powers::entry;

// The coefficients, and zeros after them. Only those that a factor can change are multiplied.
pub fn locator_polynomial(powers: &[u16; 256], set: Columns) -> [u16; 65]
    requires { (powers.now ≡ table) × (length (members set) ≤ 64) }
    ensures { (k : ℕ) → get_or result k 0 ≡ get_or (locator_polynomial (members set)) k 0 }
{
    let mut f = [0u16; 65];
    f[0] = 1;
    let mut e = 1;
    for i in set.members() {
        e += 1;
        multiply(&mut f[0..e], 257 - u32::from(entry(powers, i as u32)), 1);
    }
    f
}
