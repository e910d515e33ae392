// A symbol read off check sums.
ghost use Rattle.std.specs.Prelude.{◌≡◌};
ghost use Rattle.weights.specs.Weighable.{Readable};
ghost use Rattle.weights.specs.Weights.{symbol_read};

use field::narrow::product;

// The coefficients times the sums, the last sum first. 64 products of 65535 and 256 fit the sum, so that it is reduced once.
pub fn read_off(coefficients: &[u16], sums: &[u16]) -> u16
    requires { Readable coefficients.now sums.now }
    ensures { result ≡ symbol_read coefficients.now sums.now }
{
    let m = coefficients.len();
    let mut total: u32 = 0;
    for (k, coefficient) in coefficients.iter().enumerate() {
        total += product(*coefficient, sums[m - 1 - k]);
    }
    (total % 257) as u16
}
