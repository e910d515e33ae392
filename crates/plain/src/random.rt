// Random numbers: a linear congruential generator modulo 2^32, of which each draw takes the upper 16 bits.
ghost use Rattle.std.specs.Prelude.{◌≡◌, suc, ◌+◌, ◌<◌};
ghost use Rattle.plain.specs.Drawn.{advanced, drawn, drawn_from, later};
ghost use Rattle.plain.specs.Written.{Wrote};

use crate::values::{put, remainder};

// A number below n; 0 where n is 0.
pub fn draw(state: &mut u64, n: u16) -> u16
    ensures { (state.new ≡ advanced state.old) × (result ≡ drawn (advanced state.old) n) }
{
    let next = ((*state % 4294967296) * 1664525 + 1013904223) % 4294967296;
    *state = next;
    remainder(next / 65536, n)
}

// One of the n numbers from `least` on.
pub fn draw_from(state: &mut u64, least: u16, n: u16) -> u16
    ensures { (state.new ≡ advanced state.old) × (result ≡ drawn_from (advanced state.old) least n) }
{
    least.wrapping_add(draw(state, n))
}

// The first n places of a become numbers from `least` on, each one of p.
pub fn fill_from(state: &mut u64, least: u16, p: u16, a: &mut [u16], n: usize)
    ensures { (state.new ≡ later n state.old)
        × Wrote a.old a.new 0 n (λ k. drawn_from (later (suc k) state.old) least p) }
{
    for i in 0..n {
        put(a, i, draw_from(state, least, p));
    }
}

// The exponent of a shape: six times in ten 0, 1, 2, 127, 128 or 255, else any.
pub fn draw_exponent(state: &mut u64) -> u32
    ensures { result < 256 }
{
    match draw(state, 10) {
        0 => 0,
        1 => 1,
        2 => 2,
        3 => 127,
        4 => 128,
        5 => 255,
        _ => u32::from(draw(state, 256)),
    }
}
