// What the edges of calls share: the frames that are lent, and how their disagreement is told.
use plain::values::{first, get, plus_product, put};
use plain_frames::answers::of_reply;
use plain_frames::compare::same;
use std::io;
use whole_job::Job;

// The job with another shape. A refused shape leaves it.
pub fn reshaped(job: Job, columns: usize, checks: &[u16], exponent: u32) -> Job {
    whole_job::shape(job, columns, checks, exponent).unwrap_or(job)
}

// A legal frame of the job, whose data are 0 but for two places. It has 8, 12 or 4 symbols, and an encode of another size is refused.
fn sent(job: Job, second: usize) -> [u16; 16] {
    let mut room = [0u16; 16];
    put(&mut room, 3, 1);
    put(&mut room, second, 1);
    for n in [8, 12, 4] {
        let _ = whole_job::encode(job, first(&mut room, n));
    }
    room
}

// Such a frame with v added to its first k symbols, or put there where it is above 256.
pub fn received(job: Job, second: usize, v: u16, k: usize) -> [u16; 16] {
    let mut room = sent(job, second);
    for i in 0..k {
        let symbol = plus_product(257, get(&room, i), v, 1);
        put(&mut room, i, if v > 256 { v } else { symbol });
    }
    room
}

// What repair answers of the first n symbols. A refused call must leave them, and a frame that is mended must be the one sent, or the answer is Err(100).
pub fn repairs(job: Job, second: usize, n: usize, lent: [u16; 16]) -> Result<usize, u32> {
    let mut room = lent;
    let answer = of_reply(whole_job::repair(job, first(&mut room, n)).reply);
    let due = if answer.is_ok() {
        sent(job, second)
    } else {
        lent
    };
    if !same(&due, &room, 0) {
        return Err(100);
    }
    answer
}

// Prints the edge that disagrees.
pub fn show(rt: &impl Print, kind: u16, i: u16) -> io::Result<()> {
    println!(rt; "edges disagree: kind and number {kind} {i}")
}
