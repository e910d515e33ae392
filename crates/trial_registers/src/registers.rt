// The finder against elimination, against the trial of all taps and against Algorithm 4 without division, on random sequences and on every
// small pair of sequences.
use crate::algorithm4;
use crate::drawn::{Kind, draw_kind, random_symbols};
use crate::every_tap::shortest_of_all;
use crate::sorted::sort;
use crate::tallies::Tallies;
use brute::shortest::{Answer, generates, shortest};
use finder::Register;
use finder::find::find;
use plain::counting::advance;
use plain::random::{draw, draw_from, fill_from};
use plain::sequences::start;
use plain::tally::{count, print_list};
use plain::values::{cross, get, part};
use std::io;

// The taps, the first of which is 1, times the first of b are b.
fn proportional(p: u16, a: &[u16], b: &[u16], n: usize) -> bool {
    for i in 0..n {
        if cross(p, get(a, i), get(b, 0), get(b, i), 1) != 0 {
            return false;
        }
    }
    get(a, 0) == 1
}

// What the finder is held to: elimination and Algorithm 4; besides, where there are few taps, the trial of them all; or, planted, Algorithm 4
// with the sequences aligned at their starts, which can miss the shortest register.
#[derive(Clone, Copy, PartialEq)]
enum Model {
    Usual,
    Few,
    Planted,
}

// The answer is that of Algorithm 4, taps included. Counts besides where aligning the sequences at their starts makes the register longer.
fn follows_algorithm(
    p: u16,
    lengths: &[u16],
    symbols: &[u16],
    at_ends: bool,
    length: usize,
    taps: &[u16],
    counts: &mut Tallies,
) -> bool {
    let mut sorted_lengths = [0u16; 8];
    let mut sorted_symbols = [0u16; 1024];
    sort(lengths, symbols, &mut sorted_lengths, &mut sorted_symbols);
    let falling = part(&sorted_lengths, 0, lengths.len());
    let mut at_starts = algorithm4::rows();
    let longer = length < algorithm4::find(p, falling, &sorted_symbols, false, &mut at_starts);
    count(&mut counts.longer, longer);
    let mut rows = algorithm4::rows();
    if algorithm4::find(p, falling, &sorted_symbols, at_ends, &mut rows) != length {
        return false;
    }
    proportional(p, taps, algorithm4::taps(&rows), length.wrapping_add(1))
}

// The answer is that of elimination and, where there are few taps, that of trying them all.
fn is_shortest(p: u16, lengths: &[u16], symbols: &[u16], few: bool, found: Answer) -> bool {
    if few && found != shortest_of_all(p, lengths, symbols) {
        return false;
    }
    let mut table = elimination::table();
    found == shortest(p, lengths, symbols, &mut table)
}

// The finder's answer is the one that all other ways give.
fn agrees(p: u16, lengths: &[u16], symbols: &[u16], model: Model, counts: &mut Tallies) -> bool {
    let mut taps = [0u16; 129];
    let Ok(Register { length, alone }) = find(u32::from(p), lengths, symbols, &mut taps) else {
        return false;
    };
    count(&mut counts.alone, alone);
    count(&mut counts.not_alone, !alone);
    let few = model == Model::Few;
    let at_ends = model != Model::Planted;
    is_shortest(p, lengths, symbols, few, Answer { length, alone })
        && generates(p, lengths, symbols, &taps, length)
        && follows_algorithm(p, lengths, symbols, at_ends, length, &taps, counts)
}

// The same, and the sequences are printed where they disagree.
fn compare(
    rt: &impl Print,
    p: u16,
    lengths: &[u16],
    symbols: &[u16],
    model: Model,
    counts: &mut Tallies,
) -> io::Result<bool> {
    if agrees(p, lengths, symbols, model, counts) {
        return Ok(true);
    }
    print!(rt; "registers disagree: p {p}")?;
    print_list(rt, b", lengths", lengths)?;
    print_list(rt, b", symbols", symbols)?;
    println!(rt)?;
    Ok(false)
}

pub(crate) fn prime(i: u16) -> u16 {
    match i {
        0 => 2,
        1 => 3,
        2 => 5,
        3 => 7,
        4 => 257,
        _ => 65521,
    }
}

// Random sequences, n of them, of lengths below `bound`.
fn compare_random(
    rt: &impl Print,
    state: &mut u64,
    p: u16,
    n: usize,
    bound: u16,
    kind: Kind,
    model: Model,
    counts: &mut Tallies,
) -> io::Result<bool> {
    let mut lengths = [0u16; 8];
    let mut symbols = [0u16; 1024];
    fill_from(state, 0, bound, &mut lengths, n);
    let total = start(&lengths, n);
    let l = usize::from(draw(state, 6));
    let lent = part(&lengths, 0, n);
    random_symbols(state, p, lent, &mut symbols, total, kind, l);
    compare(rt, p, lent, part(&symbols, 0, total), model, counts)
}

// What is drawn: up to five short sequences of any kind; up to eight long ones that a short register generates; or three short ones for the
// planted model.
#[derive(Clone, Copy)]
pub(crate) enum Drawn {
    Short,
    Long,
    Planted,
}

fn compare_drawn(
    rt: &impl Print,
    state: &mut u64,
    drawn: Drawn,
    counts: &mut Tallies,
) -> io::Result<bool> {
    let p = prime(draw(state, 6));
    match drawn {
        Drawn::Short => {
            let n = usize::from(draw_from(state, 1, 5));
            let kind = draw_kind(state);
            compare_random(rt, state, p, n, 13, kind, Model::Usual, counts)
        }
        Drawn::Long => {
            let n = usize::from(draw_from(state, 1, 8));
            compare_random(rt, state, p, n, 129, Kind::Recurring, Model::Usual, counts)
        }
        Drawn::Planted => compare_random(
            rt,
            state,
            p,
            3,
            7,
            Kind::Recurring,
            Model::Planted,
            counts,
        ),
    }
}

// Up to n draws, and up to the first that disagrees.
pub(crate) fn random(
    rt: &impl Print,
    state: &mut u64,
    drawn: Drawn,
    n: usize,
    counts: &mut Tallies,
) -> io::Result<bool> {
    for _ in 0..n {
        if !compare_drawn(rt, state, drawn, counts)? {
            return Ok(false);
        }
    }
    Ok(true)
}

// All symbols of sequences of these lengths.
fn every_content(
    rt: &impl Print,
    p: u16,
    lengths: &[u16],
    counts: &mut Tallies,
) -> io::Result<bool> {
    let n = start(lengths, lengths.len());
    let mut symbols = [0u16; 1024];
    for _ in 0..4096usize {
        if !compare(rt, p, lengths, part(&symbols, 0, n), Model::Few, counts)? {
            return Ok(false);
        }
        if !advance(p, &mut symbols, 0, n) {
            return Ok(true);
        }
    }
    Ok(false)
}

// All pairs of sequences of lengths below `bound`.
pub(crate) fn every_pair(
    rt: &impl Print,
    p: u16,
    bound: u16,
    counts: &mut Tallies,
) -> io::Result<bool> {
    let mut lengths = [0u16; 2];
    for _ in 0..4096usize {
        if !every_content(rt, p, &lengths, counts)? {
            return Ok(false);
        }
        if !advance(bound, &mut lengths, 0, 2) {
            return Ok(true);
        }
    }
    Ok(false)
}
