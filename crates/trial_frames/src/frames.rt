// The four calls on a job against the definitions, on random frames with damage below, at and above half of the checks.
use crate::agreement::{RowShape, agrees};
use crate::every_frame::find_base;
use crate::tallies::Tallies;
use lost::edges::reshaped;
use plain::random::{draw, draw_exponent, draw_from, fill_from};
use plain::tally::{count, print_frame};
use plain::values::{copy, first, get, part, product, set};
use plain_frames::answers::numbered;
use plain_frames::compare::{same, same_data};
use plain_frames::damage::damage;
use plain_frames::uniform::{constant, data_of_uniform, legal};
use std::io;
use whole_job::Job;

// How large random frames are: of full size, of any size from 65 columns on, of at most seven columns, or of three columns with two checks
// in each of at most two rows, these with a given exponent; or, for the planted model, of six columns and two rows.
#[derive(Clone, Copy)]
pub(crate) enum Size {
    Full,
    Large,
    Small,
    Tiny(u32),
    Planted,
}

// Encoding leaves the data and makes the frame legal, or is refused by 34 and leaves the frame.
fn encodes(
    job: Job,
    shape: RowShape,
    checks: &[u16],
    frame: &mut [u16],
    n: usize,
    sends: bool,
) -> bool {
    let mut data = [0u16; 2048];
    copy(frame, &mut data, 0);
    let answer = numbered(whole_job::encode(job, first(frame, n)));
    if !sends {
        return answer == Err(34) && same(frame, &data, 0);
    }
    answer == Ok(())
        && same_data(shape.columns, checks, &data, frame)
        && legal(shape.exponent, shape.columns, checks, part(frame, 0, n))
}

fn least(a: &[u16]) -> u16 {
    a.iter().copied().min().unwrap_or(65535)
}

// How many columns are damaged: below half of the least checks, half of them, or above half.
fn draw_damaged(state: &mut u64, half: u16) -> u16 {
    match draw(state, 3) {
        0 => draw(state, half),
        1 => half,
        _ => draw_from(state, half.wrapping_add(1), half.wrapping_add(3)),
    }
}

// The original is due where it is legal and at most half of the least checks are damaged.
fn due(original: &[u16], sends: bool, w: u16, half: u16) -> &[u16] {
    if sends && w <= half { original } else { &[] }
}

fn show(rt: &impl Print, shape: RowShape, checks: &[u16], frame: &[u16]) -> io::Result<()> {
    print_frame(
        rt,
        b"frames disagree",
        shape.exponent,
        shape.columns,
        checks,
        frame,
    )
}

// Damages a frame, which is legal or uniform, and compares the answers about it.
fn compare_damaged(
    rt: &impl Print,
    state: &mut u64,
    job: Job,
    shape: RowShape,
    checks: &[u16],
    original: &[u16],
    sends: bool,
    base: Option<[u16; 3]>,
    counts: &mut Tallies,
) -> io::Result<bool> {
    let half = least(checks) / 2;
    let w = draw_damaged(state, half);
    counts.damaged(w, half);
    let mut room = [0u16; 2048];
    copy(original, &mut room, 0);
    damage(state, shape.columns, checks.len(), w, &mut room);
    let damaged = part(&room, 0, original.len());
    let due = due(original, sends, w, half);
    if agrees(job, shape, checks, damaged, due, base, counts) {
        return Ok(true);
    }
    show(rt, shape, checks, damaged)?;
    Ok(false)
}

// Data of a frame: random, or now and then one symbol throughout, often 0.
fn draw_data(state: &mut u64, n: usize) -> [u16; 2048] {
    let mut room = [0u16; 2048];
    let s = draw(state, 257);
    match draw(state, 8) {
        0 => set(&mut room, n, s),
        1 => {}
        _ => fill_from(state, 0, 257, &mut room, n),
    }
    room
}

// What is sent: the frame that is encoded, or the uniform one of data that are refused.
fn sent(room: [u16; 2048], n: usize, sends: bool) -> [u16; 2048] {
    if sends {
        return room;
    }
    constant(n, get(&room, n.saturating_sub(1)))
}

// A random frame, encoded, damaged and compared. Each row has one of `spread` numbers of checks from `few` on.
fn compare_random(
    rt: &impl Print,
    state: &mut u64,
    shape: RowShape,
    rows: u16,
    few: u16,
    spread: u16,
    base: Option<[u16; 3]>,
    counts: &mut Tallies,
) -> io::Result<bool> {
    let mut list = [0u16; 8];
    fill_from(state, few, spread, &mut list, usize::from(rows));
    let checks = part(&list, 0, usize::from(rows));
    let columns = usize::from(shape.columns);
    let job = reshaped(whole_job::empty(), columns, checks, shape.exponent);
    let n = product(rows, shape.columns) as usize;
    let mut room = draw_data(state, n);
    let exponent = shape.exponent;
    let sends = !data_of_uniform(exponent, shape.columns, checks, part(&room, 0, n));
    count(&mut counts.refused_34, !sends);
    if !encodes(job, shape, checks, &mut room, n, sends) {
        show(rt, shape, checks, part(&room, 0, n))?;
        return Ok(false);
    }
    let other = sent(room, n, sends);
    let original = part(&other, 0, n);
    compare_damaged(rt, state, job, shape, checks, original, sends, base, counts)
}

// A frame of two rows with three and two checks against a model that takes both for rows with three.
fn compare_planted(rt: &impl Print, state: &mut u64, counts: &mut Tallies) -> io::Result<bool> {
    let shape = RowShape {
        columns: 6,
        exponent: 1,
    };
    let checks = [3u16, 2];
    let job = reshaped(whole_job::empty(), 6, &checks, 1);
    let mut room = [0u16; 12];
    room[5] = 1;
    let _ = whole_job::encode(job, &mut room);
    damage(state, 6, 2, 2, &mut room);
    if agrees(job, shape, &[3, 3], &room, &[], None, counts) {
        return Ok(true);
    }
    show(rt, shape, &checks, &room)?;
    Ok(false)
}

fn compare_drawn(
    rt: &impl Print,
    state: &mut u64,
    size: Size,
    base: Option<[u16; 3]>,
    counts: &mut Tallies,
) -> io::Result<bool> {
    let exponent = draw_exponent(state);
    match size {
        Size::Full => {
            let columns = 256;
            let shape = RowShape { columns, exponent };
            compare_random(rt, state, shape, 8, 64, 1, base, counts)
        }
        Size::Large => {
            let columns = draw_from(state, 65, 192);
            let rows = draw_from(state, 1, 8);
            let few = draw_from(state, 33, 32);
            let spread = 65u16.wrapping_sub(few);
            let shape = RowShape { columns, exponent };
            compare_random(rt, state, shape, rows, few, spread, base, counts)
        }
        Size::Small => {
            let most = draw_from(state, 1, 6);
            let columns = most.wrapping_add(1);
            let rows = draw_from(state, 1, 4);
            let shape = RowShape { columns, exponent };
            compare_random(rt, state, shape, rows, 1, most, base, counts)
        }
        Size::Tiny(exponent) => {
            let columns = 3;
            let rows = draw_from(state, 1, 2);
            let shape = RowShape { columns, exponent };
            compare_random(rt, state, shape, rows, 2, 1, base, counts)
        }
        Size::Planted => compare_planted(rt, state, counts),
    }
}

pub(crate) fn random(
    rt: &impl Print,
    state: &mut u64,
    size: Size,
    n: usize,
    base: Option<[u16; 3]>,
    counts: &mut Tallies,
) -> io::Result<bool> {
    for _ in 0..n {
        if !compare_drawn(rt, state, size, base, counts)? {
            return Ok(false);
        }
    }
    Ok(true)
}

// n frames of three columns against all legal frames.
fn tiny(
    rt: &impl Print,
    state: &mut u64,
    exponent: u32,
    n: usize,
    counts: &mut Tallies,
) -> io::Result<bool> {
    let base = find_base(exponent);
    if base.is_none() {
        return Ok(false);
    }
    random(rt, state, Size::Tiny(exponent), n, base, counts)
}

// The same for the first exponents, the last, and those around 128, where 3^b is −1.
pub(crate) fn tiny_each(
    rt: &impl Print,
    state: &mut u64,
    n: usize,
    counts: &mut Tallies,
) -> io::Result<bool> {
    for exponent in [0, 1, 2, 127, 128, 255] {
        if !tiny(rt, state, exponent, n, counts)? {
            return Ok(false);
        }
    }
    Ok(true)
}
