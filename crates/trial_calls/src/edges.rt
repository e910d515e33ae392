// Calls on a job in each of its states at the edges (SPECIFICATION.md, "Examples"): what is just taken and what is just refused, which of two reasons comes
// first, and the state that is left. Frames have n symbols, the first k of which are v, and the others 0: to encode, or as a dead line and damage to it. Else
// they are damage to a legal frame: v is added to its first k symbols, or put there where it is above 256.
use lost::edges::{received, reshaped, show};
use lost::tallies::Tallies;
use plain::tally::count;
use plain::values::{first, part, put, set};
use plain_frames::answers::{numbered, of_reply};
use plain_frames::compare::same;
use std::io;
use whole_job::Job;

// The second place of the data of a legal frame.
const SECOND: usize = 5;

// What shape answers for rows of `checks` checks, but for the last row.
fn shapes(rows: usize, columns: usize, checks: u16, last: u16, exponent: u32) -> Result<(), u32> {
    let mut room = [checks; 9];
    put(&mut room, rows.saturating_sub(1), last);
    let checks = part(&room, 0, rows);
    numbered(whole_job::shape(whole_job::empty(), columns, checks, exponent)).map(|_| ())
}

fn shape_edge(i: usize) -> bool {
    match i {
        0 => shapes(0, 4, 1, 1, 1) == Err(2),
        1 => shapes(1, 4, 1, 1, 1) == Ok(()),
        2 => shapes(8, 4, 1, 1, 1) == Ok(()),
        3 => shapes(9, 4, 1, 1, 1) == Err(2),
        4 => shapes(2, 0, 1, 1, 1) == Err(5),
        5 => shapes(2, 1, 1, 1, 1) == Err(5),
        6 => shapes(2, 2, 1, 1, 1) == Ok(()),
        7 => shapes(8, 256, 64, 64, 1) == Ok(()),
        8 => shapes(8, 257, 64, 64, 1) == Err(5),
        9 => shapes(2, 65, 64, 64, 1) == Ok(()),
        10 => shapes(2, 64, 64, 64, 1) == Err(6),
        11 => shapes(2, 256, 64, 65, 1) == Err(6),
        12 => shapes(2, 4, 1, 0, 1) == Err(6),
        13 => shapes(2, 4, 0, 1, 1) == Err(6),
        14 => shapes(2, 4, 3, 4, 1) == Err(6),
        15 => shapes(0, 1, 1, 1, 256) == Err(2),
        16 => shapes(9, 257, 0, 0, 256) == Err(2),
        17 => shapes(2, 257, 65, 0, 256) == Err(5),
        18 => shapes(2, 4, 3, 4, 256) == Err(6),
        19 => shapes(2, 4, 1, 1, 0) == Ok(()),
        20 => shapes(2, 4, 1, 1, 255) == Ok(()),
        21 => shapes(2, 4, 1, 1, 256) == Err(32),
        22 => shapes(2, 4, 1, 1, 65536) == Err(32),
        23 => shapes(2, 4, 1, 1, 65537) == Err(32),
        24 => shapes(2, 4, 1, 1, 4294967295) == Err(32),
        _ => false,
    }
}

fn shape(job: Job, columns: usize, upper: u16, lower: u16, exponent: u32) -> Job {
    let checks = [upper, lower];
    reshaped(job, columns, &checks, exponent)
}

fn shaped() -> Job {
    shape(whole_job::empty(), 4, 3, 2, 1)
}

fn dead(v: u16, k: usize) -> [u16; 16] {
    let mut room = [0u16; 16];
    set(&mut room, k, v);
    room
}

fn locate(job: Job, n: usize, v: u16, k: usize) -> Job {
    let room = received(job, SECOND, v, k);
    whole_job::locate(job, &[0; 32], part(&room, 0, n)).job
}

fn located() -> Job {
    locate(shaped(), 8, 5, 1)
}

fn mend_lent(job: Job, n: usize, lent: [u16; 16]) -> Job {
    let mut room = lent;
    whole_job::repair(job, first(&mut room, n)).job
}

fn mend(job: Job, n: usize, v: u16, k: usize) -> Job {
    mend_lent(job, n, received(job, SECOND, v, k))
}

fn mend_dead(job: Job, n: usize, v: u16, k: usize) -> Job {
    mend_lent(job, n, dead(v, k))
}

fn locates_lent(job: Job, n: usize, lent: [u16; 16]) -> Result<(), u32> {
    of_reply(whole_job::locate(job, &[0; 32], part(&lent, 0, n)).reply).map(|_| ())
}

fn locates(job: Job, n: usize, v: u16, k: usize) -> Result<(), u32> {
    locates_lent(job, n, received(job, SECOND, v, k))
}

fn locates_dead(job: Job, n: usize, v: u16, k: usize) -> Result<(), u32> {
    locates_lent(job, n, dead(v, k))
}

// A refused call must leave the frame, or the answer is Err(100).
fn encodes(job: Job, n: usize, v: u16, k: usize) -> Result<(), u32> {
    let lent = dead(v, k);
    let mut room = lent;
    let answer = numbered(whole_job::encode(job, first(&mut room, n)));
    if answer.is_err() && !same(&lent, &room, 0) {
        return Err(100);
    }
    answer
}

fn repairs(job: Job, n: usize, v: u16, k: usize) -> Result<(), u32> {
    lost::edges::repairs(job, SECOND, n, received(job, SECOND, v, k)).map(|_| ())
}

fn repairs_dead(job: Job, n: usize, v: u16, k: usize) -> Result<(), u32> {
    lost::edges::repairs(job, SECOND, n, dead(v, k)).map(|_| ())
}

fn encode_edge(i: usize) -> bool {
    match i {
        0 => encodes(whole_job::empty(), 8, 5, 1) == Err(21),
        1 => encodes(whole_job::empty(), 7, 257, 4) == Err(21),
        2 => encodes(shaped(), 8, 256, 4) == Ok(()),
        3 => encodes(shaped(), 8, 65535, 3) == Err(34),
        4 => encodes(shaped(), 8, 257, 4) == Err(4),
        5 => encodes(shaped(), 7, 257, 4) == Err(7),
        6 => encodes(shaped(), 9, 5, 1) == Err(7),
        7 => encodes(located(), 8, 5, 4) == Ok(()),
        8 => encodes(located(), 8, 5, 3) == Err(34),
        9 => encodes(shaped(), 8, 5, 8) == Ok(()),
        10 => encodes(shape(whole_job::empty(), 4, 1, 1, 64), 8, 5, 8) == Err(34),
        11 => encodes(shape(whole_job::empty(), 4, 1, 1, 64), 8, 5, 4) == Ok(()),
        12 => encodes(shape(whole_job::empty(), 4, 1, 1, 64), 8, 257, 8) == Err(4),
        13 => encodes(shape(whole_job::empty(), 4, 1, 1, 64), 9, 5, 8) == Err(7),
        _ => false,
    }
}

// Dead lines and damage to them. 3^64 is a fourth root of 1, and 3^128 is −1; in edges 16 and 18 the rows differ.
fn locate_dead_edge(i: usize) -> bool {
    match i {
        12 => locates_dead(shaped(), 8, 0, 0) == Err(26),
        13 => locates_dead(shaped(), 8, 5, 1) == Err(26),
        14 => locates_dead(located(), 8, 0, 0) == Err(26),
        15 => locates_dead(shape(whole_job::empty(), 2, 1, 1, 128), 4, 5, 4) == Err(26),
        16 => locates_dead(shape(whole_job::empty(), 2, 1, 1, 128), 4, 5, 2) == Ok(()),
        17 => locates_dead(shape(whole_job::empty(), 4, 1, 1, 64), 8, 5, 8) == Err(26),
        18 => locates_dead(shape(whole_job::empty(), 4, 1, 1, 64), 8, 5, 4) == Ok(()),
        19 => locates_dead(shape(whole_job::empty(), 4, 1, 1, 63), 8, 5, 8) == Err(24),
        _ => false,
    }
}

// Edges 10 and 11 have one damage: its rows 5 5 have check sums 0 for the exponent 128, since 3^128 is −1, and not for 127.
fn locate_edge(i: usize) -> bool {
    match i {
        0 => locates(whole_job::empty(), 8, 5, 1) == Err(21),
        1 => locates(whole_job::empty(), 7, 257, 1) == Err(21),
        2 => locates(shaped(), 8, 256, 1) == Ok(()),
        3 => locates(shaped(), 8, 257, 1) == Err(4),
        4 => locates(shaped(), 7, 257, 1) == Err(7),
        5 => locates(shaped(), 9, 5, 1) == Err(7),
        6 => locates(shaped(), 8, 0, 0) == Ok(()),
        7 => locates(shape(whole_job::empty(), 4, 1, 1, 1), 8, 5, 1) == Err(24),
        8 => locates(shape(whole_job::empty(), 6, 4, 1, 1), 12, 1, 2) == Err(25),
        9 => locates(shape(whole_job::empty(), 4, 2, 2, 1), 8, 1, 2) == Err(26),
        10 => locates(shape(whole_job::empty(), 2, 1, 1, 127), 4, 5, 4) == Err(24),
        11 => locates(shape(whole_job::empty(), 2, 1, 1, 128), 4, 5, 4) == Ok(()),
        _ => locate_dead_edge(i),
    }
}

// Two columns that are damaged come back.
fn comes_back(exponent: u32) -> bool {
    let job = shape(whole_job::empty(), 6, 4, 4, exponent);
    repairs(locate(job, 12, 5, 2), 12, 5, 2) == Ok(())
}

fn repair_edge(i: usize) -> bool {
    match i {
        0 => repairs(whole_job::empty(), 8, 5, 1) == Err(21),
        1 => repairs(whole_job::empty(), 7, 257, 1) == Err(21),
        2 => repairs(shaped(), 8, 5, 1) == Err(22),
        3 => repairs(shaped(), 7, 257, 1) == Err(22),
        4 => repairs(located(), 8, 5, 1) == Ok(()),
        5 => repairs(located(), 7, 257, 1) == Err(7),
        6 => repairs(located(), 9, 5, 1) == Err(7),
        7 => repairs(located(), 8, 257, 1) == Err(4),
        8 => repairs(located(), 8, 6, 1) == Err(23),
        9 => comes_back(0),
        10 => comes_back(1),
        11 => comes_back(2),
        12 => comes_back(127),
        13 => comes_back(128),
        14 => comes_back(255),
        15 => repairs_dead(located(), 8, 5, 1) == Err(26),
        16 => repairs_dead(located(), 8, 6, 1) == Err(23),
        17 => repairs_dead(located(), 8, 257, 1) == Err(4),
        18 => repairs_dead(located(), 9, 5, 1) == Err(7),
        19 => repairs_dead(shaped(), 8, 5, 1) == Err(22),
        _ => false,
    }
}

// The state that a call leaves, told by a repair that only a located job takes.
fn state_edge(i: usize) -> bool {
    match i {
        0 => repairs(locate(located(), 7, 5, 1), 8, 5, 1) == Ok(()),
        1 => repairs(locate(located(), 8, 257, 1), 8, 5, 1) == Ok(()),
        2 => repairs(locate(located(), 8, 1, 2), 8, 5, 1) == Err(22),
        3 => repairs(locate(located(), 8, 6, 1), 8, 5, 1) == Err(23),
        4 => repairs(mend(located(), 7, 5, 1), 8, 5, 1) == Ok(()),
        5 => repairs(mend(located(), 8, 6, 1), 8, 5, 1) == Ok(()),
        6 => repairs(mend(located(), 8, 5, 1), 8, 5, 1) == Err(22),
        7 => repairs(shape(located(), 4, 4, 2, 1), 8, 5, 1) == Ok(()),
        8 => repairs(shape(located(), 4, 3, 2, 1), 8, 5, 1) == Err(22),
        9 => repairs(shape(located(), 4, 3, 2, 2), 8, 5, 1) == Err(22),
        10 => repairs(shape(located(), 4, 3, 2, 256), 8, 5, 1) == Ok(()),
        11 => repairs(mend_dead(located(), 8, 5, 1), 8, 5, 1) == Err(22),
        12 => repairs(mend_dead(located(), 8, 6, 1), 8, 5, 1) == Ok(()),
        _ => false,
    }
}

fn edge(kind: u16, i: u16) -> bool {
    let k = usize::from(i);
    match kind {
        0 => shape_edge(k),
        1 => encode_edge(k),
        2 => locate_edge(k),
        3 => repair_edge(k),
        _ => state_edge(k),
    }
}

// All edges: of each kind there are so many.
pub(crate) fn try_all(rt: &impl Print, counts: &mut Tallies) -> io::Result<bool> {
    for (kind, n) in [(0, 25), (1, 14), (2, 20), (3, 20), (4, 13)] {
        for i in 0..n {
            count(&mut counts.edges, true);
            if !edge(kind, i) {
                show(rt, kind, i)?;
                return Ok(false);
            }
        }
    }
    Ok(true)
}
