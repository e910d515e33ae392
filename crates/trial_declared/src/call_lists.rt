// Random lists of calls on one job. A frame stands in a room; each call is lent a copy of it, whose declared cells hold anything, and which may have a wrong
// size or a symbol above 256.
use crate::drawn::{Size, draw_frame};
use lost::against::Pair;
use lost::cells::draw_cells;
use lost::lent::{draw_size, strike};
use lost::many_calls::{Calls, show_cells};
use lost::model::{Model, Phase};
use lost::tallies::Tallies;
use lost::{against, cells, lent};
use plain::random::draw;
use plain::tally::count;
use plain::values::{copy, first, part, set};
use std::io;

// A new shape with a frame that is encoded, a locate, or a repair.
#[derive(Clone, Copy)]
enum Call {
    Renew,
    Locate,
    Repair,
}

fn draw_call(state: &mut u64, model: &Model) -> Call {
    match draw(state, 16) {
        0 => Call::Renew,
        1..=8 => Call::Locate,
        _ if matches!(model.phase, Phase::Empty) => Call::Renew,
        _ => Call::Repair,
    }
}

// A copy of the frame, whose declared cells hold anything; seldom another symbol is put above 256.
fn spoiled(state: &mut u64, model: &Model, words: &[u64; 32], room: &[u16]) -> [u16; 2048] {
    let mut lent = [0u16; 2048];
    copy(room, &mut lent, 0);
    cells::spoil(state, words, model.columns, model.rows, &mut lent);
    lent::spoil(state, model.size(), &mut lent);
    lent
}

// A locate with cells that are drawn.
fn locate(rt: &impl Print, state: &mut u64, pair: Pair, room: &[u16]) -> io::Result<Option<Pair>> {
    let model = &pair.model;
    let words = draw_cells(state, model.columns, model.checks());
    let lent = spoiled(state, model, &words, room);
    let frame = part(&lent, 0, draw_size(state, model.size()));
    let next = against::locate(pair, &words, frame);
    if next.is_none() {
        show_cells(rt, model, &words, frame)?;
    }
    Ok(next)
}

// The cells that the job holds; none where it is not located.
fn held(model: &Model) -> [u64; 32] {
    match model.phase {
        Phase::Located(found) => found.words,
        _ => [0; 32],
    }
}

// A repair with the cells that the job holds. What it leaves stands in the room if it is not refused.
fn repair(
    rt: &impl Print,
    state: &mut u64,
    pair: Pair,
    room: &mut [u16],
) -> io::Result<Option<Pair>> {
    let model = &pair.model;
    let words = held(model);
    let mut lent = spoiled(state, model, &words, room);
    let n = draw_size(state, model.size());
    let next = against::repair(pair, first(&mut lent, n));
    match next {
        None => show_cells(rt, model, &words, part(&lent, 0, n))?,
        Some(Pair { refused: None, .. }) => copy(&lent, room, 0),
        Some(_) => {}
    }
    Ok(next)
}

// Before a locate the frame is damaged, and seldom before a repair, or it is all 0 then.
fn prepare(state: &mut u64, call: Call, model: &Model, room: &mut [u16]) {
    match call {
        Call::Renew => {}
        Call::Locate => strike(state, model, 2, room),
        Call::Repair => match draw(state, 8) {
            0 => strike(state, model, 1, room),
            1 => set(room, model.size(), 0),
            _ => {}
        },
    }
}

fn tally(call: Call, refused: Option<u32>, counts: &mut Tallies) {
    count(
        &mut counts.dead,
        matches!((call, refused), (Call::Repair, Some(26))),
    );
    if let Some(number) = refused {
        counts.refuse(number);
        return;
    }
    match call {
        Call::Renew => count(&mut counts.shaped, true),
        Call::Locate => count(&mut counts.found, true),
        Call::Repair => count(&mut counts.mended, true),
    }
}

pub(crate) struct WithCells;

impl Calls for WithCells {
    fn next(
        &self,
        rt: &impl Print,
        state: &mut u64,
        pair: Pair,
        room: &mut [u16],
        counts: &mut Tallies,
    ) -> io::Result<Option<Pair>> {
        let call = draw_call(state, &pair.model);
        prepare(state, call, &pair.model, room);
        let next = match call {
            Call::Renew => draw_frame(state, pair, Size::Middle, room),
            Call::Locate => locate(rt, state, pair, room)?,
            Call::Repair => repair(rt, state, pair, room)?,
        };
        if let Some(pair) = next {
            tally(call, pair.refused, counts);
        }
        Ok(next)
    }
}
