// The shortest register by trying all taps, for small p and short sequences.
use brute::shortest::{Answer, generates};
use plain::counting::advance;

// How many taps of length l generate all sequences, counted one by one up to 4096.
fn count(p: u16, lengths: &[u16], symbols: &[u16], l: usize) -> usize {
    let mut taps = [0u16; 129];
    taps[0] = 1;
    let mut n: usize = 0;
    for _ in 0..4096usize {
        n = n.wrapping_add(usize::from(generates(p, lengths, symbols, &taps, l)));
        if !advance(p, &mut taps, 1, l.wrapping_add(1)) {
            return n;
        }
    }
    0
}

pub(crate) fn shortest_of_all(p: u16, lengths: &[u16], symbols: &[u16]) -> Answer {
    for l in 0..129 {
        let n = count(p, lengths, symbols, l);
        if n != 0 {
            return Answer {
                length: l,
                alone: n == 1,
            };
        }
    }
    Answer {
        length: 129,
        alone: false,
    }
}
