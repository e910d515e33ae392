// The finder on random input with up to two flaws, against the reasons to refuse (SPECIFICATION.md, "Refusals"), in their order.
use crate::edges::find_in;
use crate::registers::prime;
use crate::tallies::Tallies;
use plain::random::{draw, draw_from, fill_from};
use plain::refused::require;
use plain::sequences::start;
use plain::tally::{count, print_list};
use plain::values::{part, put, remainder};
use std::io;

// No number from 2 to p − 1 divides p.
fn is_prime(p: u16) -> bool {
    if p < 2 {
        return false;
    }
    for d in 2..p {
        if remainder(u64::from(p), d) == 0 {
            return false;
        }
    }
    true
}

fn greatest(a: &[u16]) -> u16 {
    a.iter().copied().max().unwrap_or(0)
}

// The number of the first reason to refuse.
fn reason(p: u16, lengths: &[u16], symbols: &[u16], room: usize) -> Result<(), u32> {
    require(p <= 65521 && is_prime(p), 1)?;
    require((1..=8).contains(&lengths.len()), 2)?;
    require(greatest(lengths) <= 128, 3)?;
    require(start(lengths, lengths.len()) == symbols.len(), 3)?;
    require(room > usize::from(greatest(lengths)), 8)?;
    require(symbols.iter().all(|x| *x < p), 4)
}

fn draw_modulus(state: &mut u64, flawed: bool) -> u16 {
    if flawed {
        return draw(state, 65535);
    }
    prime(draw(state, 6))
}

fn draw_count(state: &mut u64, flawed: bool) -> u16 {
    if flawed {
        return 9u16.wrapping_sub(draw(state, 10));
    }
    draw_from(state, 1, 8)
}

fn flaw_lengths(state: &mut u64, flawed: bool, lengths: &mut [u16], n: u16) {
    if flawed {
        let h = draw(state, n);
        put(lengths, usize::from(h), draw_from(state, 128, 2));
    }
}

fn flaw_total(state: &mut u64, flawed: bool, total: usize) -> usize {
    if flawed {
        return total
            .saturating_sub(1)
            .wrapping_add(usize::from(draw(state, 3)));
    }
    total
}

fn flaw_symbols(state: &mut u64, flawed: bool, p: u16, symbols: &mut [u16], n: usize) {
    if flawed {
        let i = draw(state, remainder(n as u64, 65535));
        put(symbols, usize::from(i), p.wrapping_add(draw(state, 3)));
    }
}

fn draw_room(state: &mut u64, flawed: bool, most: u16) -> usize {
    if flawed {
        return usize::from(draw_from(state, most, 2));
    }
    usize::from(most) + 1
}

fn compare(
    rt: &impl Print,
    p: u16,
    lengths: &[u16],
    symbols: &[u16],
    room: usize,
    counts: &mut Tallies,
) -> io::Result<bool> {
    let mut taps = [0u16; 140];
    let answer = find_in(u32::from(p), lengths, symbols, &mut taps, room);
    count(&mut counts.refused, answer.is_err());
    if answer == reason(p, lengths, symbols, room) {
        return Ok(true);
    }
    let sizes = [p, remainder(room as u64, 65535)];
    print_list(rt, b"refusals disagree: p and number of taps", &sizes)?;
    print_list(rt, b", lengths", lengths)?;
    print_list(rt, b", symbols", symbols)?;
    println!(rt)?;
    Ok(false)
}

// Of what input is flawed: the number of sequences, a length, the number of all symbols, a symbol, the number of taps, or the modulus.
#[derive(Clone, Copy, PartialEq)]
enum Flaw {
    Modulus,
    Count,
    Length,
    Total,
    Symbol,
    Taps,
}

fn draw_flaw(state: &mut u64) -> Option<Flaw> {
    match draw(state, 7) {
        0 => Some(Flaw::Modulus),
        1 => Some(Flaw::Count),
        2 => Some(Flaw::Length),
        3 => Some(Flaw::Total),
        4 => Some(Flaw::Symbol),
        5 => Some(Flaw::Taps),
        _ => None,
    }
}

// Up to two flaws.
#[derive(Clone, Copy)]
struct Flaws {
    first: Option<Flaw>,
    second: Option<Flaw>,
}

impl Flaws {
    fn has(&self, flaw: Flaw) -> bool {
        self.first == Some(flaw) || self.second == Some(flaw)
    }
}

// Draws the symbols of sequences that have `whole` of them, and the number of taps.
fn compare_lengths(
    rt: &impl Print,
    state: &mut u64,
    flaws: Flaws,
    p: u16,
    lengths: &[u16],
    whole: usize,
    counts: &mut Tallies,
) -> io::Result<bool> {
    let total = flaw_total(state, flaws.has(Flaw::Total), whole);
    let mut symbols = [0u16; 1200];
    fill_from(state, 0, p, &mut symbols, total);
    flaw_symbols(state, flaws.has(Flaw::Symbol), p, &mut symbols, total);
    let room = draw_room(state, flaws.has(Flaw::Taps), greatest(lengths));
    compare(rt, p, lengths, part(&symbols, 0, total), room, counts)
}

fn compare_flawed(
    rt: &impl Print,
    state: &mut u64,
    flaws: Flaws,
    counts: &mut Tallies,
) -> io::Result<bool> {
    let p = draw_modulus(state, flaws.has(Flaw::Modulus));
    let n = draw_count(state, flaws.has(Flaw::Count));
    let mut room = [0u16; 9];
    fill_from(state, 0, 6, &mut room, usize::from(n));
    flaw_lengths(state, flaws.has(Flaw::Length), &mut room, n);
    let lengths = part(&room, 0, usize::from(n));
    compare_lengths(
        rt,
        state,
        flaws,
        p,
        lengths,
        start(lengths, usize::from(n)),
        counts,
    )
}

pub(crate) fn random(
    rt: &impl Print,
    state: &mut u64,
    n: usize,
    counts: &mut Tallies,
) -> io::Result<bool> {
    for _ in 0..n {
        let first = draw_flaw(state);
        let second = draw_flaw(state);
        if !compare_flawed(rt, state, Flaws { first, second }, counts)? {
            return Ok(false);
        }
    }
    Ok(true)
}
