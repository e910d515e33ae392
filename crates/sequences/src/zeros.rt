// Symbols that are all 0.
ghost use Rattle.std.specs.Prelude.{◌≡◌};
ghost use Rattle.sequences.specs.Zeros.{all_zero};

use crate::every::every;

pub fn all_zero(symbols: &[u16]) -> bool
    ensures { result ≡ all_zero symbols.now }
{
    every(symbols, |x| x == 0)
}
