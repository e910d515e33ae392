// Sequences of symbols that stand one after the other in a lent array, with a list of their lengths.
ghost use Rattle.std.specs.Prelude.{◌≡◌, slice_index};
ghost use Rattle.plain.specs.Plain.{capped, discrepancy, sequence, sum};

use crate::values::{before, get, part, plus_product};

// Where sequence h starts.
pub fn start(lengths: &[u16], h: usize) -> usize
    ensures { result ≡ capped (sum h (λ i. slice_index lengths.now i)) }
{
    let mut at: usize = 0;
    for i in 0..h {
        at = at.saturating_add(usize::from(get(lengths, i)));
    }
    at
}

pub fn sequence<'a, 'b>(lengths: &'b [u16], symbols: &'a [u16], h: usize) -> &'a [u16]
    ensures { result.now ≡ sequence lengths.now symbols.now h }
{
    part(symbols, start(lengths, h), usize::from(get(lengths, h)))
}

// The symbol at place j and those before it, times the n taps.
pub fn discrepancy(p: u16, s: &[u16], taps: &[u16], n: usize, j: usize) -> u16
    ensures { result ≡ discrepancy p s.now taps.now n j }
{
    let mut d: u16 = 0;
    for i in 0..n {
        d = plus_product(p, d, get(taps, i), before(s, j, i));
    }
    d
}
