// The sum of the products of taps and symbols: a discrepancy, where the symbols stand backwards.
ghost use Rattle.std.specs.Prelude.{◌≡◌, ◌%◌, leb};
ghost use Rattle.discrepancy.specs.Discrepancies.{Loose, Narrow, Summable, sum_at};
ghost use Rattle.discrepancy.specs.Modulus.{WorkedOut};

use crate::Modulus;
use crate::padded::padded;
use field::montgomery::{bottom, top};
use field::narrow::product;
use field::reciprocal::wide_remainder;

// The products of the taps 0 .. l and the symbols from `from` on, where they are small.
fn narrow_sum(l: usize, taps: &[u16; 144], symbols: &[u16; 1152], from: usize) -> u32
    requires { Narrow l taps.now symbols.now from }
    ensures { result ≡ sum_at l taps.now symbols.now from }
{
    let mut sum = 0;
    for i in 0..padded(l + 1) {
        sum += product(taps[i], symbols[from + i]);
    }
    sum
}

// The same where they need not be. The lower and the upper halves of the products are summed each by themselves, since 32 bits vectorise well, and reduced
// once, by the reciprocal.
fn wide_sum(f: Modulus, l: usize, taps: &[u16; 144], symbols: &[u16; 1152], from: usize) -> u32
    requires { Summable f l taps.now symbols.now from }
    ensures { result ≡ sum_at l taps.now symbols.now from % f.p }
{
    let mut low = 0;
    let mut high = 0;
    for i in 0..padded(l + 1) {
        let a = taps[i];
        let b = symbols[from + i];
        low += u32::from(bottom(a, b));
        high += u32::from(top(a, b));
    }
    wide_remainder(u64::from(low) + 65536 * u64::from(high), f.p, f.wide)
}

// Whether p is that of frames, or less.
pub fn is_small(f: Modulus) -> bool
    ensures { result ≡ leb f.p 257 }
{
    f.p <= 257
}

// Modulo a small p the sum is left as it is: its product with a residue is reduced once then.
pub fn sum_at(f: Modulus, l: usize, taps: &[u16; 144], symbols: &[u16; 1152], from: usize) -> u32
    requires { Summable f l taps.now symbols.now from }
    ensures p_value { result % f.p ≡ sum_at l taps.now symbols.now from % f.p }
    ensures loose { Loose f.p result }
{
    if is_small(f) {
        return narrow_sum(l, taps, symbols, from);
    }
    wide_sum(f, l, taps, symbols, from)
}

// The residue that a sum stands for.
pub fn residue(f: Modulus, sum: u32) -> u32
    requires { WorkedOut f × Loose f.p sum }
    ensures { result ≡ sum % f.p }
{
    if is_small(f) {
        return wide_remainder(u64::from(sum), f.p, f.wide);
    }
    sum
}
