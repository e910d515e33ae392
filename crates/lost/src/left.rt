// What is left of the check sums of a frame as read: the columns of the declared cells of a row are taken out, one after the other.
use crate::cells::list;
use brute::erasures::take_out_all;
use plain::sequences::sequence;
use plain::values::{copy, part, put};

// Puts what is left of the check sums of row h behind what is left of those before it, and answers how much that is.
fn row_left(words: &[u64; 32], h: usize, sums: &[u16], left: &mut [u16], at: usize) -> usize {
    let mut columns = [0u16; 256];
    let n = list(words, h, &[], &mut columns);
    let mut room = [0u16; 64];
    copy(sums, &mut room, 0);
    take_out_all(&mut room, sums.len(), part(&columns, 0, n));
    let m = sums.len().saturating_sub(n);
    copy(part(&room, 0, m), left, at);
    m
}

// What is left of the check sums of each row, and how much.
pub fn all_left(
    words: &[u64; 32],
    checks: &[u16],
    sums: &[u16],
    left: &mut [u16],
    lengths: &mut [u16],
) {
    let mut at: usize = 0;
    for h in 0..checks.len() {
        let n = row_left(words, h, sequence(checks, sums, h), left, at);
        put(lengths, h, (n % 65536) as u16);
        at = at.wrapping_add(n);
    }
}
