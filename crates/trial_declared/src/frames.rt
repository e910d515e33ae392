// Random frames with declared cells: damaged, the declared cells filled with anything, located and repaired. Small ones are confirmed by all sets of columns,
// the smallest by all legal frames; damage in reach of the checks that are left must be mended.
use crate::drawn::{Size, draw_frame};
use crate::small::{frames_agree, sets_agree};
use lost::against::Pair;
use lost::many_calls::show_cells;
use lost::model::{Model, Planted};
use lost::tallies::Tallies;
use lost::{against, cells, model};
use plain::random::draw;
use plain::tally::count;
use plain::values::{copy, first, get, part};
use plain_frames::compare::same;
use plain_frames::damage::damage;
use std::io;

// In how many columns damage is in reach: half of the checks that are left, in the row with the fewest.
fn reach(words: &[u64; 32], checks: &[u16]) -> usize {
    let mut least: usize = 32;
    for (h, n) in checks.iter().enumerate() {
        let left = usize::from(*n).saturating_sub(cells::count(words, h));
        least = least.min(left / 2);
    }
    least
}

// What is expected of the damaged frame is right by the ways that small frames allow.
fn confirmed(tiny: bool, model: &Model, words: &[u64; 32], damaged: &[u16]) -> bool {
    let frame = model::read(words, model.columns, damaged);
    let sums = model.sums_of(&frame);
    let mut marks = [0u16; 256];
    let summed = model.search(words, &sums, &mut marks);
    if !sets_agree(model, words, &sums, summed) {
        return false;
    }
    if !tiny {
        return true;
    }
    let expected = model.ruled(words, &marks, damaged, summed);
    frames_agree(
        model.exponent,
        words,
        model.checks().len(),
        &frame,
        expected,
    )
}

// What a locate answered is confirmed, and it did not refuse where the original is due.
fn settled(
    refused: Option<u32>,
    tiny: bool,
    before: &Model,
    words: &[u64; 32],
    damaged: &[u16],
    due: bool,
) -> bool {
    match refused {
        Some(31) => true,
        Some(_) if due => false,
        _ => confirmed(tiny, before, words, damaged),
    }
}

// Repair of a located frame agrees and, where the original is due, restores it.
fn restores(located: Pair, damaged: &mut [u16], original: &[u16], due: bool) -> bool {
    if located.refused.is_some() {
        return true;
    }
    against::repair(located, damaged).is_some() && (!due || same(damaged, original, 0))
}

// Locates and repairs the damaged frame; what locate left, if all of that is right.
fn mends(
    pair: Pair,
    tiny: bool,
    words: &[u64; 32],
    damaged: &mut [u16],
    original: &[u16],
    due: bool,
) -> Option<Pair> {
    let located = against::locate(pair, words, damaged)?;
    if !settled(located.refused, tiny, &pair.model, words, damaged, due) {
        return None;
    }
    if !restores(located, damaged, original, due) {
        return None;
    }
    Some(located)
}

// The frame with w columns damaged, and with anything in its declared cells.
fn struck(
    state: &mut u64,
    model: &Model,
    words: &[u64; 32],
    original: &[u16],
    w: u16,
) -> [u16; 2048] {
    let mut frame = [0u16; 2048];
    copy(original, &mut frame, 0);
    damage(state, model.columns, usize::from(model.rows), w, &mut frame);
    cells::spoil(state, words, model.columns, model.rows, &mut frame);
    frame
}

fn tally(refused: Option<u32>, due: bool, counts: &mut Tallies) {
    match refused {
        Some(number) => counts.refuse(number),
        None => count(&mut counts.found, true),
    }
    count(&mut counts.in_reach, due);
    count(&mut counts.past_reach, !due);
}

// Declares cells of a legal or a uniform frame, damages it, and compares the answers about it.
fn compare_damaged(
    rt: &impl Print,
    state: &mut u64,
    pair: Pair,
    tiny: bool,
    original: &[u16],
    counts: &mut Tallies,
) -> io::Result<bool> {
    let model = &pair.model;
    let checks = model.checks();
    let words = cells::draw_cells(state, model.columns, checks);
    let w = draw(state, get(checks, 0) / 2 + 2);
    // What was sent comes back if it is legal and the damage is in reach.
    let due = pair.refused.is_none() && usize::from(w) <= reach(&words, checks);
    let mut frame = struck(state, model, &words, original, w);
    let n = model.size();
    let Some(located) = mends(pair, tiny, &words, first(&mut frame, n), original, due) else {
        show_cells(rt, model, &words, part(&frame, 0, n))?;
        return Ok(false);
    };
    tally(located.refused, due, counts);
    Ok(true)
}

pub(crate) fn random(
    rt: &impl Print,
    state: &mut u64,
    size: Size,
    n: usize,
    counts: &mut Tallies,
) -> io::Result<bool> {
    for _ in 0..n {
        let mut room = [0u16; 2048];
        let empty = against::empty(Planted::Right);
        let Some(pair) = draw_frame(state, empty, size, &mut room) else {
            return Ok(false);
        };
        if !compare_damaged(rt, state, pair, size == Size::Tiny, &room, counts)? {
            return Ok(false);
        }
    }
    Ok(true)
}
