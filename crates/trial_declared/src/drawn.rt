// Random shapes, and frames of them.
use lost::against;
use lost::against::Pair;
use plain::random::{draw, draw_exponent, draw_from, fill_from};
use plain::values::{first, part, product, set};

// How large frames are: of full size, of any size from 65 columns on, of at most ten columns, of at most six, or of three columns with two checks in each of at
// most two rows.
#[derive(Clone, Copy, PartialEq)]
pub(crate) enum Size {
    Full,
    Large,
    Middle,
    Small,
    Tiny,
}

// Each row has one of `spread` numbers of checks from `few` on.
#[derive(Clone, Copy)]
struct Drawn {
    columns: u16,
    rows: u16,
    few: u16,
    spread: u16,
}

// A shape of one to four rows with at least two and at most `most` columns.
fn draw_below(state: &mut u64, most: u16) -> Drawn {
    let spread = draw_from(state, 1, most.wrapping_sub(1));
    Drawn {
        columns: spread.wrapping_add(1),
        rows: draw_from(state, 1, 4),
        few: 1,
        spread,
    }
}

fn draw_large(state: &mut u64) -> Drawn {
    let few = draw_from(state, 17, 32);
    Drawn {
        columns: draw_from(state, 65, 192),
        rows: draw_from(state, 1, 8),
        few,
        spread: 65u16.wrapping_sub(few),
    }
}

fn draw_shape(state: &mut u64, size: Size) -> Drawn {
    match size {
        Size::Full => Drawn {
            columns: 256,
            rows: 8,
            few: 64,
            spread: 1,
        },
        Size::Large => draw_large(state),
        Size::Middle => draw_below(state, 10),
        Size::Small => draw_below(state, 6),
        Size::Tiny => Drawn {
            columns: 3,
            rows: draw_from(state, 1, 2),
            few: 2,
            spread: 1,
        },
    }
}

// Data of a frame: random, or now and then one symbol throughout, often 0.
fn fill(state: &mut u64, room: &mut [u16], n: usize) {
    let s = draw(state, 257);
    match draw(state, 12) {
        0 => set(room, n, s),
        1 => set(room, n, 0),
        _ => fill_from(state, 0, 257, room, n),
    }
}

// The job with a random shape; a random frame that it has encoded stands in the room, or one whose data are refused.
pub(crate) fn draw_frame(
    state: &mut u64,
    pair: Pair,
    size: Size,
    room: &mut [u16],
) -> Option<Pair> {
    let drawn = draw_shape(state, size);
    let rows = usize::from(drawn.rows);
    let mut checks = [0u16; 8];
    fill_from(state, drawn.few, drawn.spread, &mut checks, rows);
    let n = product(drawn.rows, drawn.columns) as usize;
    fill(state, room, n);
    let exponent = draw_exponent(state);
    let shaped = against::shape(pair, drawn.columns, part(&checks, 0, rows), exponent)?;
    against::encode(shaped, first(room, n))
}
