// How a frame is drawn that is lent to a call: damaged, of a wrong size, or with a symbol above 256.
use crate::model::Model;
use plain::random::{draw, draw_from};
use plain::values::{put, remainder};
use plain_frames::damage::damage;

// Damages up to `most` columns of the frame.
pub fn strike(state: &mut u64, model: &Model, most: u16, room: &mut [u16]) {
    let w = draw(state, most.wrapping_add(1));
    damage(state, model.columns, usize::from(model.rows), w, room);
}

// How many symbols are lent: mostly those of the shape. A job without one is lent eight.
pub fn draw_size(state: &mut u64, n: usize) -> usize {
    if n == 0 {
        return 8;
    }
    match draw(state, 20) {
        0 => n.wrapping_add(1),
        1 => n.saturating_sub(1),
        _ => n,
    }
}

// Seldom one of the first n symbols is put above 256.
pub fn spoil(state: &mut u64, n: usize, lent: &mut [u16]) {
    if draw(state, 10) == 0 {
        let i = draw(state, remainder(n as u64, 65535));
        put(lent, usize::from(i), draw_from(state, 257, 3));
    }
}
