// The taps of a register less a multiple of a shifted one, and the register that is saved.
ghost use Rattle.std.specs.Prelude.{◌≡◌, ℕ, suc, ◌*◌, ◌%◌, ◌<◌, take};
ghost use Rattle.field.specs.Coefficients.{reduced};
ghost use Rattle.field.specs.Residue.{quotient};
ghost use Rattle.lists.specs.Parts.{replaced};
ghost use Rattle.discrepancy.specs.Discrepancies.{Loose};
ghost use Rattle.discrepancy.specs.Modulus.{WorkedOut};
ghost use Rattle.reduction.specs.Reductions.{Reducible, Divided, Keepable, block};

use crate::taking::take_off;
use discrepancy::Modulus;
use discrepancy::padded::padded;
use discrepancy::sums::is_small;
use field::narrow::difference;
use field::reciprocal::{remainder, wide_remainder};

// All taps less q·x^e·τ, τ being the m + 1 taps saved for sequence h, modulo 2.
fn reduce_two(taps: &mut [u16; 144], q: u32, e: usize, m: usize, saved: &[u16; 1152], h: usize)
    requires { (q < 2) × Reducible 2 taps.old e m saved.now h }
    ensures { taps.new ≡ reduced 2 143 taps.old q e (take (suc m) (block h saved.now)) }
{
    let at = h * 144;
    for i in 0..m + 1 {
        let k = e + i;
        let y = (q * u32::from(saved[at + i] % 2) % 2) as u16;
        taps[k] = difference(taps[k], y, 2);
    }
}

// d times `over`, where `sum` stands for d.
fn factor(f: Modulus, sum: u32, over: u16) -> u32
    requires { WorkedOut f × Loose f.p sum × (over < f.p) }
    ensures equals { result ≡ (sum * over) % f.p }
    ensures below { result < f.p }
{
    let v = sum * u32::from(over);
    if is_small(f) {
        return wide_remainder(u64::from(v), f.p, f.wide);
    }
    remainder(v, f.p, f.reciprocal)
}

// The taps less (d / c)·x^e·τ, where `sum` stands for d, and c is the discrepancy that τ was saved with; `over` is 2^16 over c modulo p. Modulo 2 τ is taken d
// times.
pub fn reduce(
    f: Modulus,
    moduli: &[u16; 144],
    taps: &mut [u16; 144],
    sum: u32,
    over: u16,
    e: usize,
    m: usize,
    saved: &[u16; 1152],
    h: usize,
)
    requires divided { Divided f moduli.now sum over }
    requires reducible { Reducible f.p taps.old e m saved.now h }
    ensures { (c : ℕ) → over ≡ quotient f.p (65536 % f.p) c →
        taps.new ≡ reduced f.p 143 taps.old (quotient f.p (sum % f.p) c) e (take (suc m) (block h saved.now)) }
{
    if f.p == 2 {
        reduce_two(taps, sum % 2, e, m, saved, h);
        return;
    }
    let u = factor(f, sum, over);
    take_off(f, moduli, taps, e, u, saved, h * 144, padded(m + 1));
}

// The taps become the block of sequence h.
fn keep(saved: &mut [u16], h: usize, taps: &[u16])
    requires { Keepable saved.old h taps.now }
    ensures { saved.new ≡ replaced (h * 144) 144 saved.old taps.now }
{
    let a = h * 144;
    let e = a + 144;
    saved[a..e].copy_from_slice(taps);
}

// The same reduction where the register grows: its taps before it become what is saved for sequence h. They are copied first, since the reduction still
// reads the block that they go to.
pub fn reduce_keeping(
    f: Modulus,
    moduli: &[u16; 144],
    taps: &mut [u16; 144],
    sum: u32,
    over: u16,
    e: usize,
    m: usize,
    saved: &mut [u16; 1152],
    h: usize,
)
    requires divided { Divided f moduli.now sum over }
    requires reducible { Reducible f.p taps.old e m saved.old h }
    ensures by_index { (c : ℕ) → over ≡ quotient f.p (65536 % f.p) c →
        taps.new ≡ reduced f.p 143 taps.old (quotient f.p (sum % f.p) c) e (take (suc m) (block h saved.old)) }
    ensures saved_after { saved.new ≡ replaced (h * 144) 144 saved.old taps.old }
{
    let old = *taps;
    reduce(f, moduli, taps, sum, over, e, m, saved, h);
    keep(saved, h, &old);
}
