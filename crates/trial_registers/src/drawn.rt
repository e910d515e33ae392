// Random sequences of several kinds.
use plain::random::{draw, fill_from};
use plain::sequences::start;
use plain::values::{before, cross, get, plus_product, put, remainder};

// What follows at place i by the recurrence with these l taps.
fn next(p: u16, s: &[u16], i: usize, taps: &[u16], l: usize) -> u16 {
    let mut sum: u16 = 0;
    for k in 0..l {
        sum = plus_product(p, sum, get(taps, k), before(s, i, k + 1));
    }
    cross(p, 0, 0, 1, sum)
}

fn recur(p: u16, symbols: &mut [u16], from: usize, to: usize, taps: &[u16], l: usize) {
    for i in from..to {
        let v = next(p, symbols, i, taps, l);
        put(symbols, i, v);
    }
}

// Lets every sequence follow the recurrence after its first l symbols.
fn recur_all(p: u16, lengths: &[u16], symbols: &mut [u16], taps: &[u16], l: usize) {
    for (h, n) in lengths.iter().enumerate() {
        let at = start(lengths, h);
        let from = at.wrapping_add(l);
        let to = at.wrapping_add(usize::from(*n));
        recur(p, symbols, from, to, taps, l);
    }
}

fn spoil(state: &mut u64, p: u16, symbols: &mut [u16], n: usize) {
    let i = draw(state, remainder(n as u64, 65535));
    put(symbols, usize::from(i), draw(state, p));
}

// Random symbols; then every sequence follows a random recurrence of length l.
fn recur_at_random(
    state: &mut u64,
    p: u16,
    lengths: &[u16],
    symbols: &mut [u16],
    n: usize,
    l: usize,
) {
    fill_from(state, 0, p, symbols, n);
    let mut taps = [0u16; 128];
    fill_from(state, 0, p, &mut taps, l);
    recur_all(p, lengths, symbols, &taps, l);
}

// Zeros but for two symbols.
fn nearly_zero(state: &mut u64, p: u16, symbols: &mut [u16], n: usize) {
    fill_from(state, 0, 1, symbols, n);
    spoil(state, p, symbols, n);
    spoil(state, p, symbols, n);
}

// What random symbols are: any; of a register of length l, so that a short one generates them; the same with one symbol spoilt; or zeros but for two.
#[derive(Clone, Copy)]
pub(crate) enum Kind {
    Any,
    Recurring,
    Spoilt,
    NearlyZero,
}

pub(crate) fn draw_kind(state: &mut u64) -> Kind {
    match draw(state, 4) {
        0 => Kind::Any,
        1 => Kind::Recurring,
        2 => Kind::Spoilt,
        _ => Kind::NearlyZero,
    }
}

// Random symbols, n of them.
pub(crate) fn random_symbols(
    state: &mut u64,
    p: u16,
    lengths: &[u16],
    symbols: &mut [u16],
    n: usize,
    kind: Kind,
    l: usize,
) {
    match kind {
        Kind::NearlyZero => nearly_zero(state, p, symbols, n),
        Kind::Any => fill_from(state, 0, p, symbols, n),
        Kind::Recurring => recur_at_random(state, p, lengths, symbols, n, l),
        Kind::Spoilt => {
            recur_at_random(state, p, lengths, symbols, n, l);
            spoil(state, p, symbols, n);
        }
    }
}
