// How far the nearest codeword is, for frames of few columns: all sets of columns are tried, and elimination tells whether errors in
// them alone give the check sums.
use plain::counting::advance;
use plain::sequences::sequence;
use plain::values::{part, put, times};
use plain_frames::frames::{power, size};

// The equation of a check sum in which column i has the weight step^i: the errors of the marked columns, times their weights, add up to it.
fn pose(table: &mut [u16], marks: &[u16], sum: u16, step: u16) {
    put(table, 0, sum);
    for (i, mark) in marks.iter().enumerate() {
        put(table, i + 1, times(257, *mark, power(step, i)));
    }
}

fn explain_row(table: &mut [u16], exponent: u32, marks: &[u16], sums: &[u16]) -> bool {
    let n = marks.len().wrapping_add(1);
    elimination::clear(table, n);
    let mut step = power(3, exponent as usize);
    for sum in sums {
        pose(table, marks, *sum, step);
        if elimination::contradicts(elimination::add(257, table, n)) {
            return false;
        }
        step = times(257, step, 3);
    }
    true
}

// Errors in the marked columns alone give the check sums of every row.
pub(crate) fn explain(exponent: u32, marks: &[u16], checks: &[u16], sums: &[u16]) -> bool {
    let mut table = elimination::table();
    for h in 0..checks.len() {
        if !explain_row(&mut table, exponent, marks, sequence(checks, sums, h)) {
            return false;
        }
    }
    true
}

// How many sets of d columns explain the check sums. There are at most eight columns.
pub(crate) fn ways(d: usize, exponent: u32, columns: usize, checks: &[u16], sums: &[u16]) -> usize {
    let mut marks = [0u16; 8];
    let mut n: usize = 0;
    for _ in 0..256usize {
        let tried = part(&marks, 0, columns);
        let explained = size(tried) == d && explain(exponent, tried, checks, sums);
        n = n.wrapping_add(usize::from(explained));
        if !advance(2, &mut marks, 0, columns) {
            return n;
        }
    }
    0
}

// The least number of columns in which errors explain the check sums.
pub(crate) fn nearest(exponent: u32, columns: usize, checks: &[u16], sums: &[u16]) -> usize {
    for d in 0..9 {
        if ways(d, exponent, columns, checks, sums) != 0 {
            return d;
        }
    }
    9
}
