// Each call on a job against the model: the answer, the frame and the job that it leaves.
use crate::model;
use crate::model::{Found, Model, Phase, Planted, Step};
use plain::values::{copy, part};
use plain_frames::answers::{numbered, of_reply};
use plain_frames::compare::{differ_in, same, same_columns, same_data};
use plain_frames::uniform::legal;
use whole_job::{Answered, Job};

// A job and its model, which agree, and the number by which the last call was refused. A call answers no pair where they do not agree.
#[derive(Clone, Copy)]
pub struct Pair {
    pub refused: Option<u32>,
    pub job: Job,
    pub model: Model,
}

pub fn empty(planted: Planted) -> Pair {
    Pair {
        refused: None,
        job: whole_job::empty(),
        model: model::empty(planted),
    }
}

// The phase is that of the model and, of a located job, what it holds.
fn same_state(job: &Job, model: &Model) -> bool {
    match (job.head.phase, model.phase) {
        (job::Phase::Empty, Phase::Empty) => true,
        (job::Phase::Shaped, Phase::Shaped) => true,
        (job::Phase::Located { length, alone: _ }, Phase::Located(found)) => {
            length == found.length
                && same_columns(job.head.columns, &found.named)
                && job.sums == found.sums
                && job.declared == found.words
        }
        _ => false,
    }
}

// The job and the model as a call leaves them.
fn agreed(refused: Option<u32>, job: Job, model: Model) -> Option<Pair> {
    if !same_state(&job, &model) {
        return None;
    }
    Some(Pair {
        refused,
        job,
        model,
    })
}

pub fn shape(pair: Pair, columns: u16, checks: &[u16], exponent: u32) -> Option<Pair> {
    let due = pair.model.shape(columns, checks, exponent);
    let answer = whole_job::shape(pair.job, usize::from(columns), checks, exponent);
    match (numbered(answer), due) {
        (Ok(job), Ok(model)) => agreed(None, job, model),
        (Err(number), Err(reason)) if number == reason => Some(Pair {
            refused: Some(number),
            ..pair
        }),
        _ => None,
    }
}

// Encoding leaves the data and makes the frame legal. A refused encode leaves the frame.
fn encoded(model: &Model, refused: bool, before: &[u16], after: &[u16]) -> bool {
    if refused {
        return same(before, after, 0);
    }
    let checks = model.checks();
    same_data(model.columns, checks, before, after)
        && legal(model.exponent, model.columns, checks, after)
}

pub fn encode(pair: Pair, frame: &mut [u16]) -> Option<Pair> {
    let due = pair.model.encode(frame);
    let mut room = [0u16; 2048];
    copy(frame, &mut room, 0);
    let answer = numbered(whole_job::encode(pair.job, frame));
    let before = part(&room, 0, frame.len());
    if answer != due || !encoded(&pair.model, due.is_err(), before, frame) {
        return None;
    }
    Some(Pair {
        refused: due.err(),
        ..pair
    })
}

// What locate or repair answers and leaves is what is due.
fn follows(answered: Answered, due: Step) -> Option<Pair> {
    let reply = of_reply(answered.reply);
    let right = match due.answer {
        Ok(found) => reply == Ok(found.length) && same_columns(answered.columns, &found.named),
        Err(number) => reply == Err(number),
    };
    if !right {
        return None;
    }
    agreed(due.answer.err(), answered.job, due.model)
}

pub fn locate(pair: Pair, words: &[u64; 32], frame: &[u16]) -> Option<Pair> {
    let due = pair.model.locate(words, frame);
    follows(whole_job::locate(pair.job, words, frame), due)
}

// Repair leaves a legal frame, which differs, read with 0 in the declared cells, in just the named columns. A refused one leaves the frame.
fn mended(model: &Model, answer: Result<Found, u32>, before: &[u16], after: &[u16]) -> bool {
    let Ok(found) = answer else {
        return same(before, after, 0);
    };
    let checks = model.checks();
    let columns = model.columns;
    let old = model::read(&found.words, columns, before);
    let new = model::read(&found.words, columns, after);
    legal(model.exponent, columns, checks, after)
        && differ_in(columns, checks.len(), &old, &new, &found.named)
}

pub fn repair(pair: Pair, frame: &mut [u16]) -> Option<Pair> {
    let due = pair.model.repair(frame);
    let mut room = [0u16; 2048];
    copy(frame, &mut room, 0);
    let answered = whole_job::repair(pair.job, frame);
    let before = part(&room, 0, frame.len());
    if !mended(&pair.model, due.answer, before, frame) {
        return None;
    }
    follows(answered, due)
}
