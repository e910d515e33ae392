// The legal frames of three columns with two checks in every row, one by one. Such a row has one data symbol, and is a multiple of the row whose data symbol is
// 1, the base.
use crate::cells::is_declared;
use plain::counting::advance;
use plain::values::{get, part, times};
use plain_frames::frames::row;

// The frame differs in column i from the codeword with these data symbols, one in each row.
fn differs(base: [u16; 3], words: &[u64; 32], data: &[u16], frame: &[u16], i: u16) -> bool {
    let k = usize::from(i);
    for (h, symbol) in data.iter().enumerate() {
        let due = times(257, *symbol, get(&base, k));
        if !is_declared(words, h, i) && get(row(frame, 3, h), k) != due {
            return true;
        }
    }
    false
}

fn distance(base: [u16; 3], words: &[u64; 32], data: &[u16], frame: &[u16]) -> usize {
    let mut n: usize = 0;
    for i in 0..3u16 {
        n = n.wrapping_add(usize::from(differs(base, words, data, frame, i)));
    }
    n
}

// How many legal frames lie at distance c or less. The frame has at most two rows. Zeros are no legal frame, and no other of these codewords has one symbol
// throughout.
pub fn frames_within(
    c: usize,
    base: [u16; 3],
    words: &[u64; 32],
    rows: usize,
    frame: &[u16],
) -> usize {
    let mut room = [0u16; 2];
    let mut n: usize = 0;
    for _ in 0..66049usize {
        let data = part(&room, 0, rows);
        let near = data.iter().any(|x| *x != 0) && distance(base, words, data, frame) <= c;
        n = n.wrapping_add(usize::from(near));
        if !advance(257, &mut room, 0, rows) {
            return n;
        }
    }
    0
}
