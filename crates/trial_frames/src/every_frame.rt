// The row of three columns with both check sums 0 whose data symbol is 1, by trying all check symbols.
use plain::counting::advance;
use plain_frames::frames::codeword;

pub(crate) fn find_base(exponent: u32) -> Option<[u16; 3]> {
    let mut base = [0u16, 0, 1];
    for _ in 0..66049usize {
        if codeword(exponent, 3, &[2], &base) {
            return Some(base);
        }
        if !advance(257, &mut base, 0, 2) {
            return None;
        }
    }
    None
}
