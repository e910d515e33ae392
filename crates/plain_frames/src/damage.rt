// Damage of frames: symbols of columns that are chosen at random are changed.
ghost use Rattle.std.specs.Prelude.{List, ◌≡◌, ℕ, ◌*◌, ◌≤◌, ◌<◌, length, get_or, set};
ghost use Rattle.plain_frames.specs.Frames.{Chosen, DamagedBy, Different, Nonzero, Struck};
ghost use Rattle.plain.specs.Plain.{rem};
ghost use Rattle.plain.specs.Written.{Wrote};

use plain::random::{draw, draw_from, fill_from};
use plain::values::{get, part, plus_product, product, put, remainder, times};

fn number(order: &mut [u16], n: u16)
    ensures { Wrote order.old order.new 0 n (λ k. k) }
{
    for i in 0..n {
        put(order, usize::from(i), i);
    }
}

fn swap(a: &mut [u16], i: usize, j: usize)
    ensures { a.new ≡ set (set a.old i (get_or a.old j 0)) j (get_or a.old i 0) }
{
    let x = get(a, i);
    let y = get(a, j);
    put(a, i, y);
    put(a, j, x);
}

// Different numbers below n stay different numbers below n.
fn mix(state: &mut u64, order: &mut [u16], n: u16)
    ensures { n ≤ length order.old → Different n n order.old → Different n n order.new }
{
    for i in 0..n {
        let j = draw(state, n);
        swap(order, usize::from(i), usize::from(j));
    }
}

// How damage spreads over the rows of a column: in every row by itself, in multiples of one number, or in one row alone.
// Some row has a factor that is not 0, so that every column that is struck changes.
fn draw_factors(state: &mut u64, kind: u16, factors: &mut [u16], rows: usize)
    ensures { 0 < rows → rows ≤ 8 → rows ≤ length factors.old → ((h : ℕ) × (h < rows) × Nonzero (get_or factors.new h 0)) }
{
    if kind == 2 {
        let h = draw(state, remainder(rows as u64, 65535));
        put(factors, usize::from(h), 1);
        return;
    }
    fill_from(state, 0, 257, factors, rows);
    put(factors, 0, draw_from(state, 1, 256));
}

fn error(state: &mut u64, kind: u16, factor: u16, e: u16) -> u16
    ensures { (kind ≡ 0 → Nonzero result) × ((kind ≡ 0 → ⊥) → result ≡ rem (factor * e) 257) }
{
    if kind == 0 {
        return draw_from(state, 1, 256);
    }
    times(257, factor, e)
}

// A frame has at most eight rows.
fn at_most_eight(rows: usize) -> u16
    ensures { (result ≤ rows) × (result ≤ 8) × (rows ≤ 8 → result ≡ rows) }
{
    rows.min(8) as u16
}

fn damage_column(
    state: &mut u64,
    kind: u16,
    factors: &[u16],
    columns: u16,
    rows: u16,
    i: u16,
    frame: &mut [u16],
)
    ensures { Struck columns rows i factors.now frame.old frame.new }
{
    let e = draw_from(state, 1, 256);
    for h in 0..rows {
        let at = product(h, columns) as usize + usize::from(i);
        let x = error(state, kind, get(factors, usize::from(h)), e);
        let v = plus_product(257, get(frame, at), x, 1);
        put(frame, at, v);
    }
}

fn damage_columns(
    state: &mut u64,
    kind: u16,
    factors: &[u16],
    columns: u16,
    rows: u16,
    order: &[u16],
    frame: &mut [u16],
)
    ensures { DamagedBy factors.now columns rows order.now (length order.now) frame.old frame.new }
{
    for i in order {
        damage_column(state, kind, factors, columns, rows, *i, frame);
    }
}

// Damages w columns of a frame that has so many, one to eight rows and all its cells in the array: some symbols of each are changed, and no
// others. Of any other frame at most w columns are damaged.
pub fn damage(state: &mut u64, columns: u16, rows: usize, w: u16, frame: &mut [u16])
    ensures { (order : List ℕ) × Chosen columns rows w order frame.old frame.new }
{
    let mut order = [0u16; 256];
    number(&mut order, columns);
    mix(state, &mut order, columns);
    let kind = draw(state, 3);
    let mut factors = [0u16; 8];
    draw_factors(state, kind, &mut factors, rows);
    let chosen = part(&order, 0, usize::from(w));
    damage_columns(
        state,
        kind,
        &factors,
        columns,
        at_most_eight(rows),
        chosen,
        frame,
    );
}
