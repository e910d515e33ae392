// Declared cells, as they are lent to locate: which can be declared, which columns of a row are lost by them, and how they are drawn.
use plain::random::{draw, draw_from};
use plain::values::{get, put, remainder};
use plain_frames::cells::mark;

// Whether the cell of column i in row h is declared.
pub fn is_declared(words: &[u64; 32], h: usize, i: u16) -> bool {
    h < 8 && mark(words, 256 * h + usize::from(i)) == 1
}

// Lists the columns that are declared in row h or marked, and answers how many there are.
pub fn list(words: &[u64; 32], h: usize, marks: &[u16], columns: &mut [u16]) -> usize {
    let mut n: usize = 0;
    for i in 0..256u16 {
        if is_declared(words, h, i) || get(marks, usize::from(i)) == 1 {
            put(columns, n, i);
            n = n.wrapping_add(1);
        }
    }
    n
}

// How many cells of row h are declared.
pub fn count(words: &[u64; 32], h: usize) -> usize {
    let mut columns = [0u16; 256];
    list(words, h, &[], &mut columns)
}

// Mark k is set and past the last row or column.
fn is_past(words: &[u64; 32], k: usize, columns: u16, rows: usize) -> bool {
    mark(words, k) != 0 && (k / 256 >= rows || k % 256 >= usize::from(columns))
}

fn some_past(words: &[u64; 32], columns: u16, rows: usize) -> bool {
    (0..2048usize).any(|k| is_past(words, k, columns, rows))
}

// Some row has more declared cells than checks.
fn too_many(words: &[u64; 32], checks: &[u16]) -> bool {
    for (h, n) in checks.iter().enumerate() {
        if count(words, h) > usize::from(*n) {
            return true;
        }
    }
    false
}

pub fn declarable(words: &[u64; 32], columns: u16, checks: &[u16]) -> bool {
    !some_past(words, columns, checks.len()) && !too_many(words, checks)
}

// Sets mark k.
pub fn declare(words: &mut [u64; 32], k: usize) {
    if let Some(word) = words.get_mut(k / 64) {
        *word |= 1u64 << (k % 64);
    }
}

// How many cells of a row with n checks are declared: mostly none or a few, at times all that can be, seldom one more.
fn draw_count(state: &mut u64, n: u16) -> u16 {
    match draw(state, 32) {
        0 => n.wrapping_add(1),
        1..=3 => n,
        4..=15 => 0,
        _ => draw(state, n / 2 + 2),
    }
}

// Declares n cells of row h, each `stride` columns after the one before.
fn declare_row(words: &mut [u64; 32], columns: u16, h: usize, first: u16, stride: u16, n: u16) {
    if h >= 8 {
        return;
    }
    let mut i = u64::from(first);
    for _ in 0..n {
        let column = remainder(i, columns);
        declare(words, 256 * h + usize::from(column % 256));
        i = i.wrapping_add(u64::from(stride));
    }
}

// Cells of a frame with these checks; seldom one that lies anywhere.
pub fn draw_cells(state: &mut u64, columns: u16, checks: &[u16]) -> [u64; 32] {
    let mut words = [0u64; 32];
    for (h, checks) in checks.iter().enumerate() {
        let n = draw_count(state, *checks);
        let first = draw(state, columns);
        let stride = draw_from(state, 1, columns.wrapping_sub(1));
        declare_row(&mut words, columns, h, first, stride, n);
    }
    if draw(state, 24) == 0 {
        declare(&mut words, usize::from(draw(state, 2048)));
    }
    words
}

// What a lost cell holds: any number, and at times 257 or the largest.
fn draw_rubbish(state: &mut u64) -> u16 {
    match draw(state, 4) {
        0 => 257,
        1 => 65535,
        _ => draw(state, 65535),
    }
}

// Puts anything into the declared cells of a frame.
pub fn spoil(state: &mut u64, words: &[u64; 32], columns: u16, rows: u16, frame: &mut [u16]) {
    let mut at: usize = 0;
    for h in 0..rows {
        for i in 0..columns {
            if is_declared(words, usize::from(h), i) {
                put(frame, at, draw_rubbish(state));
            }
            at = at.wrapping_add(1);
        }
    }
}
