// Algorithm 4 of Schmidt and Sidorenko without division, so that taps are known up to a factor. With the sequences aligned at their starts it can
// miss the shortest register, as they show of the Feng–Tzeng algorithm.
use plain::sequences::{discrepancy, sequence};
use plain::values::{cross, get, part, put, remainder};

// Registers are rows of one array. Rows 0 to 7 are those saved for the sequences, row 8 is the one that is being built. A row holds the
// place and the discrepancy at which the register was saved, its length and its taps.
const ROW: usize = 132;

const CURRENT: usize = 8;

const PLACE: usize = 0;

const LENGTH: usize = 1;

const DISCREPANCY: usize = 2;

const TAPS: usize = 3;

pub(crate) fn rows() -> [u16; 1188] {
    [0; 1188]
}

fn slot(h: usize, i: usize) -> usize {
    if h <= CURRENT && i < ROW {
        return h * ROW + i;
    }
    9 * ROW
}

fn entry(rows: &[u16], h: usize, i: usize) -> u16 {
    get(rows, slot(h, i))
}

fn enter(rows: &mut [u16], h: usize, i: usize, v: u16) {
    put(rows, slot(h, i), v);
}

// The taps of the register that is being built.
pub(crate) fn taps(rows: &[u16]) -> &[u16] {
    part(rows, CURRENT * ROW + TAPS, 129)
}

fn gap(lengths: &[u16], h: usize, at_ends: bool) -> u16 {
    if !at_ends {
        return 0;
    }
    get(lengths, 0).saturating_sub(get(lengths, h))
}

fn begin(lengths: &[u16], at_ends: bool, rows: &mut [u16]) {
    for h in 0..lengths.len() {
        enter(rows, h, PLACE, gap(lengths, h, at_ends));
        enter(rows, h, DISCREPANCY, 1);
    }
}

// Tap i of the register saved for sequence h, shifted by e.
fn shifted(rows: &[u16], h: usize, i: usize, e: usize) -> u16 {
    match i.checked_sub(e) {
        Some(k) => entry(rows, h, k.wrapping_add(TAPS)),
        None => 0,
    }
}

// Takes the multiple of the saved register from tap i; where the register grows, the old tap is saved.
fn reduce_tap(p: u16, rows: &mut [u16], h: usize, i: usize, e: usize, d: u16, grows: bool) {
    let at = i.wrapping_add(TAPS);
    let x = entry(rows, CURRENT, at);
    let v = cross(p, x, entry(rows, h, DISCREPANCY), shifted(rows, h, i, e), d);
    enter(rows, CURRENT, at, v);
    if grows {
        enter(rows, h, at, x);
    }
}

// All taps, the highest first, so that a saved tap is read before it is written.
fn reduce(p: u16, rows: &mut [u16], h: usize, e: usize, d: u16, grows: bool) {
    for k in 0..129 {
        reduce_tap(p, rows, h, 128 - k, e, d, grows);
    }
}

// What a discrepancy d at place n changes by the register saved for sequence h.
fn change(p: u16, n: u16, h: usize, d: u16, rows: &mut [u16]) {
    let place = usize::from(entry(rows, h, PLACE));
    let l = entry(rows, CURRENT, LENGTH);
    let size = usize::from(entry(rows, h, LENGTH));
    let grown = (usize::from(n) + size).saturating_sub(place);
    let grows = usize::from(l) < grown;
    reduce(p, rows, h, usize::from(n).saturating_sub(place), d, grows);
    if grows {
        enter(rows, h, PLACE, n);
        enter(rows, h, LENGTH, l);
        enter(rows, h, DISCREPANCY, d);
        enter(rows, CURRENT, LENGTH, remainder(grown as u64, 65535));
    }
}

// The step at place n of sequence h, whose first symbol stands at place `gap` + 1.
fn step(p: u16, n: u16, h: usize, s: &[u16], gap: u16, rows: &mut [u16]) {
    let l = usize::from(entry(rows, CURRENT, LENGTH));
    let j = usize::from(n).saturating_sub(usize::from(gap));
    if j <= l || j > s.len() {
        return;
    }
    let d = discrepancy(p, s, taps(rows), l + 1, j - 1);
    if d != 0 {
        change(p, n, h, d, rows);
    }
}

fn round(p: u16, n: u16, lengths: &[u16], symbols: &[u16], at_ends: bool, rows: &mut [u16]) {
    for h in 0..lengths.len() {
        let gap = gap(lengths, h, at_ends);
        step(p, n, h, sequence(lengths, symbols, h), gap, rows);
    }
}

// The length that the method finds for sequences by falling length. Its register is left in the lent array, the taps times a factor.
pub(crate) fn find(
    p: u16,
    lengths: &[u16],
    symbols: &[u16],
    at_ends: bool,
    rows: &mut [u16],
) -> usize {
    begin(lengths, at_ends, rows);
    enter(rows, CURRENT, TAPS, 1);
    for n in 0..get(lengths, 0) {
        round(p, n + 1, lengths, symbols, at_ends, rows);
    }
    usize::from(entry(rows, CURRENT, LENGTH))
}
