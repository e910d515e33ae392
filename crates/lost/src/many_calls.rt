// Random lists of calls, each on a job that is empty at first and on a frame that stands in a room.
use crate::against;
use crate::against::Pair;
use crate::model::{Model, Planted};
use crate::tallies::Tallies;
use plain::random::draw_from;
use plain::tally::{count, print_frame};
use plain_frames::cells::mark;
use std::io;

// How the next call is drawn and made.
pub trait Calls {
    fn next(
        &self,
        rt: &impl Print,
        state: &mut u64,
        pair: Pair,
        room: &mut [u16],
        counts: &mut Tallies,
    ) -> io::Result<Option<Pair>>;
}

// A list of n calls; whether all of them agree.
fn list(
    calls: &impl Calls,
    rt: &impl Print,
    state: &mut u64,
    planted: Planted,
    n: u16,
    counts: &mut Tallies,
) -> io::Result<bool> {
    let mut room = [0u16; 2048];
    let mut pair = against::empty(planted);
    for _ in 0..n {
        let Some(next) = calls.next(rt, state, pair, &mut room, counts)? else {
            return Ok(false);
        };
        pair = next;
    }
    Ok(true)
}

// Lists of 10 to 30 calls against a model, up to the first call that disagrees.
pub fn random(
    calls: &impl Calls,
    rt: &impl Print,
    state: &mut u64,
    planted: Planted,
    lists: usize,
    counts: &mut Tallies,
) -> io::Result<bool> {
    for _ in 0..lists {
        count(&mut counts.lists, true);
        let n = draw_from(state, 10, 21);
        if !list(calls, rt, state, planted, n, counts)? {
            return Ok(false);
        }
    }
    Ok(true)
}

// The shape, and the frame on which calls disagree.
pub fn show(rt: &impl Print, model: &Model, frame: &[u16]) -> io::Result<()> {
    print_frame(
        rt,
        b"calls disagree",
        model.exponent,
        model.columns,
        model.checks(),
        frame,
    )
}

// The same, after the marks of the declared cells.
pub fn show_cells(
    rt: &impl Print,
    model: &Model,
    words: &[u64; 32],
    frame: &[u16],
) -> io::Result<()> {
    print!(rt; "cells")?;
    for k in 0..2048usize {
        if mark(words, k) == 1 {
            print!(rt; " {k}")?;
        }
    }
    print!(rt; "; ")?;
    show(rt, model, frame)
}
