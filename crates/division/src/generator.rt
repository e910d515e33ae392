// The generator polynomial of m checks from the exponent b on: the product of z - 3^e over e = b .. b + m - 1. It is held with its sign
// changed, so that dividing by it adds and never subtracts.
ghost use Rattle.std.specs.Prelude.{◌≤◌};
ghost use Rattle.division.specs.GeneratorPolynomial.{GeneratorPolynomial};

use field257::powers::power_of_3;
use polynomials::factor::multiply;

// One factor after the other, starting from -1, over the coefficients that are not 0 by then.
pub fn generator(b: u32, m: usize) -> [u16; 65]
    requires { m ≤ 64 }
    ensures { GeneratorPolynomial b m result }
{
    let mut f = [0u16; 65];
    f[0] = 256;
    let mut root = u32::from(power_of_3(b));
    for j in 0..m {
        multiply(&mut f[0..j + 2], 1, 257 - root);
        root = (3 * root) % 257;
    }
    f
}
