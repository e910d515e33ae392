// What is right of small frames by trying everything: all sets of columns for frames of at most eight columns, and all legal frames for those of three columns
// with two checks in each of at most two rows. Declared cells do not count for distance.
use brute::locator::Expected;
use lost::model::Model;
use lost::named::all_completable;
use lost::near::frames_within;
use plain::counting::advance;
use plain::values::{part, times};
use plain_frames::frames::{power, size};

// How many sets of at most c columns explain, with the declared cells, the check sums. There are at most eight columns.
fn sets_within(c: usize, model: &Model, words: &[u64; 32], sums: &[u16]) -> usize {
    let columns = usize::from(model.columns);
    let mut marks = [0u16; 8];
    let mut n: usize = 0;
    for _ in 0..256usize {
        let tried = part(&marks, 0, columns);
        let explained = size(tried) <= c
            && all_completable(model.exponent, words, model.checks(), sums, tried);
        n = n.wrapping_add(usize::from(explained));
        if !advance(2, &mut marks, 0, columns) {
            return n;
        }
    }
    0
}

// The row of three symbols, two of them checks, with both check sums 0, whose data symbol is 1: as a polynomial it is (x − 3^b)·(x − 3^(b + 1)).
fn coded_row(exponent: u32) -> [u16; 3] {
    let y = power(3, exponent as usize);
    [times(257, times(257, y, y), 3), times(257, 253, y), 1]
}

// How many sets of columns, or legal frames, are due within the columns of the register: one of a frame that is located, none of one refused by 26. Any number
// may be where it is refused otherwise.
fn due(expected: Expected) -> Option<usize> {
    match expected.refused {
        None => Some(1),
        Some(26) => Some(0),
        Some(_) => None,
    }
}

// All sets of columns say the same as is expected.
pub(crate) fn sets_agree(
    model: &Model,
    words: &[u64; 32],
    sums: &[u16],
    expected: Expected,
) -> bool {
    match due(expected) {
        Some(n) if model.columns <= 8 => sets_within(expected.length, model, words, sums) == n,
        _ => true,
    }
}

// All legal frames do.
pub(crate) fn frames_agree(
    exponent: u32,
    words: &[u64; 32],
    rows: usize,
    frame: &[u16],
    expected: Expected,
) -> bool {
    let Some(n) = due(expected) else {
        return true;
    };
    frames_within(expected.length, coded_row(exponent), words, rows, frame) == n
}
