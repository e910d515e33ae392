// Random lists of calls on one job. A frame stands in a room and is lent to call after call; before each it may be filled anew or damaged,
// and a call may be lent a copy of it that has a wrong size or a symbol above 256.
use lost::against;
use lost::against::Pair;
use lost::lent::{draw_size, spoil, strike};
use lost::many_calls::{Calls, show};
use lost::model::{Model, Phase};
use lost::tallies::Tallies;
use plain::random::{draw, draw_exponent, draw_from, fill_from};
use plain::tally::count;
use plain::values::{copy, first, part, put, set};
use std::io;

#[derive(Clone, Copy)]
enum Call {
    Shape,
    Encode,
    Locate,
    Repair,
}

fn draw_call(state: &mut u64, model: &Model) -> Call {
    match draw(state, 16) {
        0 => Call::Shape,
        1..=3 => Call::Encode,
        4..=9 => Call::Locate,
        _ if matches!(model.phase, Phase::Empty) => Call::Shape,
        _ => Call::Repair,
    }
}

fn draw_columns(state: &mut u64) -> u16 {
    match draw(state, 16) {
        0 => draw(state, 2),
        1 => draw_from(state, 257, 3),
        2 => draw_from(state, 11, 50),
        _ => draw_from(state, 3, 8),
    }
}

fn draw_rows(state: &mut u64) -> u16 {
    match draw(state, 16) {
        0 => 0,
        1 => 9,
        2 => draw_from(state, 1, 8),
        _ => draw_from(state, 1, 4),
    }
}

fn draw_checks(state: &mut u64, columns: u16) -> u16 {
    match draw(state, 16) {
        0 => 0,
        1 => columns,
        2 => 65,
        _ => draw_from(state, 1, columns.wrapping_sub(1)),
    }
}

// Seldom an exponent that is refused, also one whose lower bits would be taken.
fn draw_any_exponent(state: &mut u64) -> u32 {
    match draw(state, 32) {
        0 => 256,
        1 => 65537,
        2 => 4294967295,
        _ => draw_exponent(state),
    }
}

// A shape of up to eight rows and mostly few columns, or one that is refused.
fn call_shape(state: &mut u64, pair: Pair) -> Option<Pair> {
    let columns = draw_columns(state);
    let rows = draw_rows(state);
    let n = usize::from(rows);
    let mut checks = [0u16; 9];
    fill_from(state, 1, columns.wrapping_sub(1), &mut checks, n);
    let h = draw(state, rows);
    put(&mut checks, usize::from(h), draw_checks(state, columns));
    let exponent = draw_any_exponent(state);
    against::shape(pair, columns, part(&checks, 0, n), exponent)
}

// One symbol, mostly 0, for a dead line.
fn draw_dead(state: &mut u64) -> u16 {
    match draw(state, 4) {
        0 => draw(state, 257),
        _ => 0,
    }
}

// Before a frame is encoded it is often filled anew, before it is searched damaged, and before it is mended seldom; or it is all of one symbol.
fn prepare(state: &mut u64, call: Call, model: &Model, room: &mut [u16]) {
    let n = model.size();
    match (call, draw(state, 6)) {
        (Call::Encode, 0) | (Call::Repair, 1) => set(room, n, draw_dead(state)),
        (Call::Encode, 1..=3) => fill_from(state, 0, 257, room, n),
        (Call::Locate, 0..=4) => strike(state, model, 3, room),
        (Call::Repair, 0) => strike(state, model, 1, room),
        _ => {}
    }
}

fn call_on(call: Call, pair: Pair, frame: &mut [u16]) -> Option<Pair> {
    match call {
        Call::Shape => Some(pair),
        Call::Encode => against::encode(pair, frame),
        Call::Locate => against::locate(pair, &[0; 32], frame),
        Call::Repair => against::repair(pair, frame),
    }
}

// A call on a copy of the frame. What it leaves stands in the room if it is not refused.
fn call_lent(
    rt: &impl Print,
    state: &mut u64,
    call: Call,
    pair: Pair,
    room: &mut [u16],
) -> io::Result<Option<Pair>> {
    prepare(state, call, &pair.model, room);
    let n = draw_size(state, pair.model.size());
    let mut lent = [0u16; 2048];
    copy(room, &mut lent, 0);
    spoil(state, n, &mut lent);
    let next = call_on(call, pair, first(&mut lent, n));
    match next {
        None => show(rt, &pair.model, part(&lent, 0, n))?,
        Some(Pair { refused: None, .. }) => copy(&lent, room, 0),
        Some(_) => {}
    }
    Ok(next)
}

fn tally(call: Call, refused: Option<u32>, counts: &mut Tallies) {
    count(
        &mut counts.dead,
        matches!((call, refused), (Call::Repair, Some(26))),
    );
    if let Some(number) = refused {
        counts.refuse(number);
        return;
    }
    match call {
        Call::Shape => count(&mut counts.shaped, true),
        Call::Encode => count(&mut counts.encoded, true),
        Call::Locate => count(&mut counts.found, true),
        Call::Repair => count(&mut counts.mended, true),
    }
}

pub(crate) struct Usual;

impl Calls for Usual {
    fn next(
        &self,
        rt: &impl Print,
        state: &mut u64,
        pair: Pair,
        room: &mut [u16],
        counts: &mut Tallies,
    ) -> io::Result<Option<Pair>> {
        let call = draw_call(state, &pair.model);
        let next = match call {
            Call::Shape => call_shape(state, pair),
            _ => call_lent(rt, state, call, pair, room)?,
        };
        if let Some(pair) = next {
            tally(call, pair.refused, counts);
        }
        Ok(next)
    }
}
