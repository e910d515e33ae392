// Legal frames, and the codewords of one symbol throughout, which are none.
use crate::cells::{clear, mark};
use crate::compare::{differ_in, same, same_data};
use crate::frames::{codeword, row};
use plain::values::{copy, get, set};

// A frame of n symbols, all of them s, with zeros after it.
pub fn constant(n: usize, s: u16) -> [u16; 2048] {
    let mut room = [0u16; 2048];
    set(&mut room, n, s);
    room
}

// No two symbols differ. There are at most 2048.
pub fn uniform(frame: &[u16]) -> bool {
    let other = constant(frame.len(), get(frame, 0));
    same(frame, &other, 0)
}

// A codeword in which two symbols differ.
pub fn legal(exponent: u32, columns: u16, checks: &[u16], frame: &[u16]) -> bool {
    !uniform(frame) && codeword(exponent, columns, checks, frame)
}

// The data are those of a uniform codeword. The last cell is a data cell.
pub fn data_of_uniform(exponent: u32, columns: u16, checks: &[u16], frame: &[u16]) -> bool {
    let n = frame.len();
    let other = constant(n, get(frame, n.saturating_sub(1)));
    same_data(columns, checks, &other, frame) && codeword(exponent, columns, checks, &other)
}

// The first symbol of the first row that is neither in a marked column nor declared; 0 where there is none.
fn kept(words: &[u64], marks: &[u16], row: &[u16]) -> u16 {
    for (i, v) in row.iter().enumerate() {
        if mark(words, i) != 1 && get(marks, i) != 1 {
            return *v;
        }
    }
    0
}

// A uniform codeword differs from the frame, beside its declared cells, in just the marked columns.
pub fn near_uniform(
    exponent: u32,
    columns: u16,
    checks: &[u16],
    words: &[u64],
    marks: &[u16],
    frame: &[u16],
) -> bool {
    let mut other = constant(frame.len(), kept(words, marks, row(frame, columns, 0)));
    if !codeword(exponent, columns, checks, &other) {
        return false;
    }
    let mut read = [0u16; 2048];
    copy(frame, &mut read, 0);
    clear(words, columns, &mut read);
    clear(words, columns, &mut other);
    differ_in(columns, checks.len(), &read, &other, marks)
}
