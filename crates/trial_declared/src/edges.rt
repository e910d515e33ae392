// Calls with declared cells at the edges (SPECIFICATION.md, "Declared cells"): what is just taken and what is just refused, which of two reasons comes first,
// and the state that is left. The shape has four columns, the checks 3 and 2 and mostly the exponent 1. A frame is a legal one, to whose first k symbols
// v is added, or put there where it is above 256; or, as a dead line, zeros with v at the first k places. The cell of column i in row h has mark 256·h + i.
use lost::cells::declare;
use lost::edges::{received, reshaped, show};
use lost::tallies::Tallies;
use plain::tally::count;
use plain::values::{part, set};
use plain_frames::answers::{numbered, of_reply};
use std::io;
use whole_job::Job;

// The second place of the data of a legal frame.
const SECOND: usize = 6;

// The cells that are declared: `first` marks from 0 on, and `more` marks from `from` on.
#[derive(Clone, Copy)]
struct Marks {
    first: usize,
    from: usize,
    more: usize,
}

fn cells(first: usize, from: usize, more: usize) -> Marks {
    Marks { first, from, more }
}

fn words_of(cells: Marks) -> [u64; 32] {
    let mut words = [0u64; 32];
    for k in 0..cells.first {
        declare(&mut words, k);
    }
    for k in 0..cells.more {
        declare(&mut words, cells.from.wrapping_add(k));
    }
    words
}

// A frame that is lent: its size, and v at its first k symbols.
#[derive(Clone, Copy)]
struct Frame {
    size: usize,
    v: u16,
    k: usize,
}

fn lent(size: usize, v: u16, k: usize) -> Frame {
    Frame { size, v, k }
}

// The job after a locate with these cells, and the number of columns that it answers.
fn located(job: Job, cells: Marks, lent: Frame) -> (Job, Result<usize, u32>) {
    let room = received(job, SECOND, lent.v, lent.k);
    let answer = whole_job::locate(job, &words_of(cells), part(&room, 0, lent.size));
    (answer.job, of_reply(answer.reply))
}

fn locate(job: Job, cells: Marks, lent: Frame) -> Job {
    located(job, cells, lent).0
}

fn locates(job: Job, cells: Marks, lent: Frame) -> Result<usize, u32> {
    located(job, cells, lent).1
}

// The same of a given frame.
fn locates_frame(job: Job, cells: Marks, frame: &[u16]) -> Result<usize, u32> {
    of_reply(whole_job::locate(job, &words_of(cells), frame).reply)
}

// The same of a dead line.
fn locates_dead(job: Job, cells: Marks, lent: Frame) -> Result<usize, u32> {
    let mut room = [0u16; 16];
    set(&mut room, lent.k, lent.v);
    locates_frame(job, cells, part(&room, 0, lent.size))
}

fn shaped(exponent: u32) -> Job {
    reshaped(whole_job::empty(), 4, &[3, 2], exponent)
}

// A job located with a declared cell and damage in the column after it.
fn beside() -> Job {
    locate(shaped(1), cells(1, 0, 0), lent(8, 5, 2))
}

// A job located with as many declared cells as checks.
fn full() -> Job {
    locate(shaped(1), cells(3, 256, 2), lent(8, 0, 0))
}

fn locate_edge(i: usize) -> bool {
    match i {
        0 => locates(whole_job::empty(), cells(0, 2047, 1), lent(7, 257, 8)) == Err(21),
        1 => locates(shaped(1), cells(0, 2047, 1), lent(7, 257, 8)) == Err(7),
        2 => locates(shaped(1), cells(0, 2047, 1), lent(8, 257, 8)) == Err(31),
        3 => locates(shaped(1), cells(0, 4, 1), lent(8, 0, 0)) == Err(31),
        4 => locates(shaped(1), cells(0, 255, 1), lent(8, 0, 0)) == Err(31),
        5 => locates(shaped(1), cells(0, 259, 1), lent(8, 0, 0)) == Ok(0),
        6 => locates(shaped(1), cells(0, 260, 1), lent(8, 0, 0)) == Err(31),
        7 => locates(shaped(1), cells(0, 512, 1), lent(8, 0, 0)) == Err(31),
        8 => locates(shaped(1), cells(3, 256, 2), lent(8, 0, 0)) == Ok(0),
        9 => locates(shaped(1), cells(4, 256, 2), lent(8, 0, 0)) == Err(31),
        10 => locates(shaped(1), cells(3, 256, 3), lent(8, 0, 0)) == Err(31),
        11 => locates(shaped(1), cells(3, 0, 0), lent(8, 257, 3)) == Ok(0),
        12 => locates(shaped(1), cells(3, 0, 0), lent(8, 65535, 3)) == Ok(0),
        13 => locates(shaped(1), cells(3, 0, 0), lent(8, 257, 4)) == Err(4),
        14 => locates(shaped(1), cells(2, 0, 0), lent(8, 257, 3)) == Err(4),
        15 => locates(shaped(1), cells(1, 0, 0), lent(8, 5, 2)) == Ok(1),
        16 => locates(shaped(1), cells(2, 0, 0), lent(8, 5, 3)) == Err(24),
        17 => locates(shaped(1), cells(3, 0, 0), lent(8, 5, 5)) == Err(25),
        _ => locates(shaped(1), cells(0, 0, 0), lent(8, 5, 1)) == Ok(1),
    }
}

// The job with other cells than those of its locate.
fn forged(job: Job, cells: Marks) -> Job {
    let declared = words_of(cells);
    Job { declared, ..job }
}

// What repair answers of a frame: nothing, or the number of the refusal.
fn repairs_lent(job: Job, n: usize, lent: [u16; 16]) -> Result<(), u32> {
    lost::edges::repairs(job, SECOND, n, lent).map(|_| ())
}

fn repairs(job: Job, lent: Frame) -> Result<(), u32> {
    repairs_lent(job, lent.size, received(job, SECOND, lent.v, lent.k))
}

fn repair_edge(i: usize) -> bool {
    match i {
        0 => repairs(beside(), lent(8, 5, 2)) == Ok(()),
        1 => repairs(beside(), lent(7, 5, 2)) == Err(7),
        2 => repairs(beside(), lent(8, 257, 2)) == Err(4),
        3 => repairs(beside(), lent(8, 6, 2)) == Err(23),
        4 => repairs(full(), lent(8, 65535, 3)) == Ok(()),
        5 => repairs(full(), lent(8, 5, 4)) == Err(23),
        _ => repair_later_edge(i),
    }
}

// After another locate, or with forged cells. A job with cells with which no locate leaves it (past the shape, more than the checks, or with fewer checks left
// than columns named) counts as shaped.
fn repair_later_edge(i: usize) -> bool {
    let once = lent(8, 5, 2);
    match i {
        6 => repairs(locate(beside(), cells(2, 0, 0), once), lent(8, 65535, 2)) == Ok(()),
        7 => repairs(locate(beside(), cells(2, 0, 0), once), lent(8, 5, 3)) == Err(23),
        8 => repairs(
            locate(beside(), cells(0, 0, 0), lent(8, 5, 1)),
            lent(8, 5, 1),
        ) == Ok(()),
        9 => repairs(locate(beside(), cells(0, 512, 1), once), once) == Ok(()),
        10 => repairs(locate(beside(), cells(2, 0, 0), lent(8, 5, 3)), once) == Err(22),
        11 => repairs(forged(beside(), cells(0, 4, 1)), once) == Err(22),
        12 => repairs(forged(beside(), cells(0, 2047, 1)), lent(7, 257, 8)) == Err(22),
        13 => repairs(forged(full(), cells(4, 256, 2)), lent(8, 65535, 3)) == Err(22),
        14 => repairs(forged(beside(), cells(3, 0, 0)), once) == Err(22),
        15 => repairs(forged(beside(), cells(2, 0, 0)), once) == Err(23),
        _ => repairs(forged(shaped(1), cells(0, 512, 1)), once) == Err(22),
    }
}

// A job with forged cells past the shape.
fn past() -> Job {
    forged(beside(), cells(0, 512, 1))
}

// It still encodes.
fn still_encodes() -> bool {
    let mut room = [0u16, 0, 0, 1, 0, 0, 0, 0];
    numbered(whole_job::encode(past(), &mut room)) == Ok(())
}

// It still locates.
fn still_locates() -> bool {
    locates(past(), cells(0, 0, 0), lent(8, 5, 1)) == Ok(1)
}

// The smallest frame whose register names as many columns as it is long, while no legal frame lies so near: the column that is named is declared in the second
// row, where another one is damaged.
fn smallest_refused() -> bool {
    let job = reshaped(whole_job::empty(), 3, &[2, 2], 1);
    let frame = [1u16, 0, 0, 65535, 1, 0];
    locates_frame(job, cells(0, 256, 1), &frame) == Err(26)
}

// Dead lines as they are, with lost cells that hold anything, and with damage beside one.
fn dead_edge(i: usize) -> bool {
    match i {
        0 => locates_dead(shaped(1), cells(0, 0, 0), lent(8, 0, 0)) == Err(26),
        1 => locates_dead(shaped(1), cells(0, 259, 1), lent(8, 0, 0)) == Err(26),
        2 => locates_dead(shaped(1), cells(3, 256, 2), lent(8, 0, 0)) == Err(26),
        3 => locates_dead(shaped(1), cells(3, 0, 0), lent(8, 65535, 3)) == Err(26),
        4 => locates_dead(shaped(1), cells(1, 0, 0), lent(8, 5, 2)) == Err(26),
        5 => locates_dead(beside(), cells(1, 0, 0), lent(8, 5, 2)) == Err(26),
        _ => locates_dead(shaped(1), cells(0, 512, 1), lent(8, 0, 0)) == Err(31),
    }
}

// A line of fives whose lost cells, the first and the last, hold anything. 3^64 is a fourth root of 1, so that for the exponent 64 fives are a codeword.
fn fives(exponent: u32, lost: u16) -> Result<usize, u32> {
    let job = reshaped(whole_job::empty(), 4, &[1, 1], exponent);
    let frame = [lost, 5, 5, 5, 5, 5, 5, lost];
    locates_frame(job, cells(1, 259, 1), &frame)
}

// The last cell is lost, and the first symbol damaged; a dead line with the same damage, and with other damage, is lent to repair.
fn repairs_dead(v: u16) -> Result<(), u32> {
    let dead = [v, 0, 0, 0, 0, 0, 0, 65535, 0, 0, 0, 0, 0, 0, 0, 0];
    let job = locate(shaped(1), cells(0, 259, 1), lent(8, 5, 1));
    repairs_lent(job, 8, dead)
}

// A declared cell and damage in the column after it come back.
fn comes_back(exponent: u32) -> bool {
    let once = lent(8, 5, 2);
    repairs(locate(shaped(exponent), cells(1, 0, 0), once), once) == Ok(())
}

fn other_edge(i: usize) -> bool {
    match i {
        0 => still_encodes(),
        1 => still_locates(),
        2 => smallest_refused(),
        3 => comes_back(0),
        4 => comes_back(2),
        5 => comes_back(127),
        6 => comes_back(128),
        7 => comes_back(255),
        8 => fives(64, 65535) == Err(26),
        9 => fives(64, 5) == Err(26),
        10 => fives(1, 65535) == Ok(0),
        11 => fives(1, 5) == Ok(0),
        12 => repairs_dead(5) == Err(26),
        _ => repairs_dead(6) == Err(23),
    }
}

fn edge(kind: u16, i: u16) -> bool {
    let k = usize::from(i);
    match kind {
        0 => locate_edge(k),
        1 => repair_edge(k),
        2 => dead_edge(k),
        _ => other_edge(k),
    }
}

// All edges: of each kind there are so many.
pub(crate) fn try_all(rt: &impl Print, counts: &mut Tallies) -> io::Result<bool> {
    for (kind, n) in [(0, 19), (1, 17), (2, 7), (3, 14)] {
        for i in 0..n {
            count(&mut counts.edges, true);
            if !edge(kind, i) {
                show(rt, kind, i)?;
                return Ok(false);
            }
        }
    }
    Ok(true)
}
