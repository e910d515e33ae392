// What locate and repair answer about a damaged frame, against the second locator and, for small frames, against all sets of columns and
// all legal frames.
use crate::subsets::{explain, nearest, ways};
use crate::tallies::Tallies;
use brute::locator::{Expected, locate};
use lost::near::frames_within;
use plain::tally::count;
use plain::values::{copy, first, part};
use plain_frames::answers::of_reply;
use plain_frames::compare::{differ_in, same, same_columns};
use plain_frames::frames::check_sums;
use plain_frames::uniform::{legal, near_uniform};
use whole_job::{Answered, Job};

// No cell is declared.
const NONE: [u64; 32] = [0; 32];

// What the rows of a frame have in common: how many columns they have, and the exponent at which their check sums begin.
#[derive(Clone, Copy)]
pub(crate) struct RowShape {
    pub(crate) columns: u16,
    pub(crate) exponent: u32,
}

// A refused locate is one after which no frame is due, and the job is shaped: a repair is refused by 22 and leaves the frame.
fn stays(job: Job, damaged: &[u16], due: &[u16]) -> bool {
    let mut room = [0u16; 2048];
    copy(damaged, &mut room, 0);
    let answer = whole_job::repair(job, first(&mut room, damaged.len()));
    due.len() == 0 && of_reply(answer.reply) == Err(22) && same(damaged, &room, 0)
}

// Repair answers the named columns and leaves a legal frame that differs from the damaged one in just these. Where a frame is due, it is that.
fn mends(
    job: Job,
    shape: RowShape,
    checks: &[u16],
    damaged: &[u16],
    due: &[u16],
    c: usize,
    named: &[u16],
) -> bool {
    let mut room = [0u16; 2048];
    copy(damaged, &mut room, 0);
    let answer = whole_job::repair(job, first(&mut room, damaged.len()));
    let mended = part(&room, 0, damaged.len());
    of_reply(answer.reply) == Ok(c)
        && same_columns(answer.columns, named)
        && legal(shape.exponent, shape.columns, checks, mended)
        && same(due, mended, 0)
        && differ_in(shape.columns, checks.len(), damaged, mended, named)
}

// By trying all sets of columns: one set of c columns and no smaller one explains the check sums of a located frame, and none of
// c columns or fewer those of a frame refused by 26.
fn sets_agree(
    shape: RowShape,
    checks: &[u16],
    sums: &[u16],
    expected: Expected,
    named: &[u16],
) -> bool {
    let exponent = shape.exponent;
    let columns = usize::from(shape.columns);
    let c = expected.length;
    match expected.refused {
        Some(26) => c < nearest(exponent, columns, checks, sums),
        Some(_) => true,
        None => {
            nearest(exponent, columns, checks, sums) == c
                && ways(c, exponent, columns, checks, sums) == 1
                && explain(exponent, part(named, 0, columns), checks, sums)
        }
    }
}

// By trying all legal frames: one lies within c columns of a located frame, and none of a frame refused by 26.
fn frames_agree(base: [u16; 3], rows: usize, damaged: &[u16], expected: Expected) -> bool {
    let c = expected.length;
    match expected.refused {
        Some(26) => frames_within(c, base, &NONE, rows, damaged) == 0,
        Some(_) => true,
        None => frames_within(c, base, &NONE, rows, damaged) == 1,
    }
}

// What is expected by the check sums, and of the frame, is right by the ways that small frames allow.
fn confirmed(
    shape: RowShape,
    checks: &[u16],
    sums: &[u16],
    damaged: &[u16],
    summed: Expected,
    expected: Expected,
    named: &[u16],
    base: Option<[u16; 3]>,
) -> bool {
    if shape.columns > 8 {
        return true;
    }
    if !sets_agree(shape, checks, sums, summed, named) {
        return false;
    }
    match base {
        Some(base) => frames_agree(base, checks.len(), damaged, expected),
        None => true,
    }
}

// What locate answers where the check sums tell this: 26 also if the mended frame would be uniform.
fn ruled(
    shape: RowShape,
    checks: &[u16],
    damaged: &[u16],
    summed: Expected,
    named: &[u16],
) -> Expected {
    let (exponent, columns) = (shape.exponent, shape.columns);
    if summed.refused.is_some() || !near_uniform(exponent, columns, checks, &NONE, named, damaged) {
        return summed;
    }
    Expected {
        refused: Some(26),
        length: summed.length,
    }
}

// Locate answers what is expected of it.
fn answers(answer: Answered, expected: Expected, named: &[u16]) -> bool {
    let reply = of_reply(answer.reply);
    match expected.refused {
        Some(number) => reply == Err(number),
        None => reply == Ok(expected.length) && same_columns(answer.columns, named),
    }
}

// All answers about the damaged frame are right. What is due is the frame that must be restored, or nothing.
pub(crate) fn agrees(
    job: Job,
    shape: RowShape,
    checks: &[u16],
    damaged: &[u16],
    due: &[u16],
    base: Option<[u16; 3]>,
    counts: &mut Tallies,
) -> bool {
    let mut sums = [0u16; 512];
    check_sums(shape.exponent, shape.columns, checks, damaged, &mut sums);
    let mut marks = [0u16; 256];
    let summed = locate(shape.columns, checks, &sums, &mut marks);
    let named = part(&marks, 0, 256);
    let expected = ruled(shape, checks, damaged, summed, named);
    if !confirmed(shape, checks, &sums, damaged, summed, expected, named, base) {
        return false;
    }
    let answer = whole_job::locate(job, &NONE, damaged);
    if !answers(answer, expected, named) {
        return false;
    }
    counts.locate(expected.refused);
    count(&mut counts.dead, expected.refused != summed.refused);
    if expected.refused.is_some() {
        return stays(answer.job, damaged, due);
    }
    mends(
        answer.job,
        shape,
        checks,
        damaged,
        due,
        expected.length,
        named,
    )
}
