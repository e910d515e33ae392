// The finder at the edges (SPECIFICATION.md, "Examples"): what is just taken and what is just refused, and which of two reasons to refuse comes first.
use crate::tallies::Tallies;
use finder::find::find;
use plain::tally::count;
use plain::values::{part, put};
use plain_frames::answers::numbered;
use std::io;

// The finder with `room` taps. What it may not write must stay 7, or the answer is Err(100).
pub(crate) fn find_in(
    p: u32,
    lengths: &[u16],
    symbols: &[u16],
    taps: &mut [u16],
    room: usize,
) -> Result<(), u32> {
    taps.fill(7);
    if room > taps.len() {
        return Err(100);
    }
    let found = find(p, lengths, symbols, &mut taps[..room]);
    let written = match found {
        Ok(register) => register.length.wrapping_add(1),
        Err(_) => 0,
    };
    if taps.iter().skip(written).any(|x| *x != 7) {
        return Err(100);
    }
    numbered(found).map(|_| ())
}

// The finder's answer for `n` sequences of one length, `total` symbols that are 0 but for the last, and `room` taps.
fn finds(p: u32, n: usize, length: u16, total: usize, last: u16, room: usize) -> Result<(), u32> {
    let lengths = [length; 9];
    let mut symbols = [0u16; 1025];
    put(&mut symbols, total.saturating_sub(1), last);
    let mut taps = [0u16; 140];
    find_in(
        p,
        part(&lengths, 0, n),
        part(&symbols, 0, total),
        &mut taps,
        room,
    )
}

fn edge(i: usize) -> bool {
    match i {
        0 => finds(2, 1, 1, 1, 1, 2) == Ok(()),
        1 => finds(65521, 1, 1, 1, 65520, 2) == Ok(()),
        2 => finds(65519, 1, 1, 1, 65518, 2) == Ok(()),
        3 => finds(0, 1, 1, 1, 0, 2) == Err(1),
        4 => finds(1, 1, 1, 1, 0, 2) == Err(1),
        5 => finds(4, 1, 1, 1, 0, 2) == Err(1),
        6 => finds(63001, 1, 1, 1, 0, 2) == Err(1),
        7 => finds(65522, 1, 1, 1, 0, 2) == Err(1),
        8 => finds(65535, 1, 1, 1, 0, 2) == Err(1),
        9 => finds(65537, 1, 1, 1, 0, 2) == Err(1),
        10 => finds(4294967291, 1, 1, 1, 0, 2) == Err(1),
        11 => finds(5, 0, 1, 0, 0, 2) == Err(2),
        12 => finds(5, 8, 1, 8, 4, 2) == Ok(()),
        13 => finds(5, 9, 1, 9, 4, 2) == Err(2),
        14 => finds(5, 8, 128, 1024, 4, 129) == Ok(()),
        15 => finds(5, 1, 129, 129, 4, 130) == Err(3),
        16 => finds(5, 2, 3, 5, 4, 4) == Err(3),
        17 => finds(5, 2, 3, 7, 4, 4) == Err(3),
        18 => finds(5, 1, 0, 0, 0, 1) == Ok(()),
        19 => finds(5, 1, 0, 0, 0, 0) == Err(8),
        20 => finds(5, 1, 128, 128, 4, 128) == Err(8),
        21 => finds(5, 1, 128, 128, 4, 140) == Ok(()),
        22 => finds(5, 2, 3, 6, 5, 4) == Err(4),
        23 => finds(65521, 2, 3, 6, 65535, 4) == Err(4),
        24 => finds(4, 0, 1, 0, 0, 0) == Err(1),
        25 => finds(5, 9, 129, 9, 5, 0) == Err(2),
        26 => finds(5, 1, 129, 129, 5, 0) == Err(3),
        27 => finds(5, 1, 3, 2, 5, 0) == Err(3),
        28 => finds(5, 1, 3, 3, 5, 3) == Err(8),
        _ => false,
    }
}

// The first n edges.
pub(crate) fn try_all(rt: &impl Print, n: u16, counts: &mut Tallies) -> io::Result<bool> {
    for i in 0..n {
        count(&mut counts.edges, true);
        if !edge(usize::from(i)) {
            println!(rt; "edges disagree: number {i}")?;
            return Ok(false);
        }
    }
    Ok(true)
}
