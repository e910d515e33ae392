// The second locator with declared cells: their columns are taken out of the check sums, one after the other, the shortest register of what is left names
// columns, and elimination tells whether each row can be completed at its named and declared columns.
use crate::cells::list;
use crate::left::all_left;
use brute::erasures::completable;
use brute::locator::{Expected, locate};
use plain::sequences::sequence;
use plain::values::part;

fn row_completable(
    exponent: u32,
    words: &[u64; 32],
    h: usize,
    marks: &[u16],
    sums: &[u16],
) -> bool {
    let mut columns = [0u16; 256];
    let n = list(words, h, marks, &mut columns);
    completable(exponent, part(&columns, 0, n), sums)
}

// Each row can be completed at its declared columns and the marked ones.
pub fn all_completable(
    exponent: u32,
    words: &[u64; 32],
    checks: &[u16],
    sums: &[u16],
    marks: &[u16],
) -> bool {
    for h in 0..checks.len() {
        if !row_completable(exponent, words, h, marks, sequence(checks, sums, h)) {
            return false;
        }
    }
    true
}

// What locating answers for the check sums of a frame as read, as far as the register tells; the marks of the named columns are left in the lent array.
pub fn named_by(
    words: &[u64; 32],
    columns: u16,
    checks: &[u16],
    sums: &[u16],
    marks: &mut [u16],
) -> Expected {
    let mut left = [0u16; 512];
    let mut lengths = [0u16; 8];
    all_left(words, checks, sums, &mut left, &mut lengths);
    locate(columns, part(&lengths, 0, checks.len()), &left, marks)
}
