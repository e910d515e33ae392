// The forms of a job's head, as calls leave it.
#![tactic(auto, unfolding(job::specs::Job::no_columns))]

ghost use Rattle.std.specs.Prelude.{◌≡◌};
ghost use Rattle.job.specs.Job.{empty_head, shaped_head, unfinished_head, is_located_phase, is_unfinished_phase, length_of};
ghost use Rattle.heads.specs.Answered.{found, refusal, repair};

use columns::Columns;
use frame::Shape;
use job::{Answered, Head, Phase, Progress};
use refusal::Refusal;

// The head that the first call gets.
pub fn empty() -> Head
    ensures { result ≡ empty_head }
{
    let shape = Shape {
        rows: 0,
        columns: 0,
        checks: [0; 8],
        exponent: 0,
    };
    Head {
        phase: Phase::Empty,
        shape,
        columns: columns::empty(),
    }
}

pub fn shaped(s: Shape) -> Head
    ensures { result ≡ shaped_head s }
{
    Head {
        phase: Phase::Shaped,
        shape: s,
        columns: columns::empty(),
    }
}

pub fn unfinished(s: Shape) -> Head
    ensures { result ≡ unfinished_head s }
{
    Head {
        phase: Phase::Unfinished,
        shape: s,
        columns: columns::empty(),
    }
}

// What locate answers that is not refused: the c columns, and how many were tried.
pub fn located(s: Shape, c: usize, columns: Columns, tried: usize) -> Answered
    ensures { result ≡ found s c columns tried }
{
    let head = Head {
        phase: Phase::Located {
            length: c,
            alone: true,
        },
        shape: s,
        columns,
    };
    Answered {
        reply: Ok(Progress::Columns(c)),
        columns,
        tried,
        head,
    }
}

// What locate and repair answer that refuse, with the head that they leave.
pub fn refuse(j: Head, why: Refusal) -> Answered
    ensures { result ≡ refusal j why }
{
    Answered {
        reply: Err(why),
        columns: columns::empty(),
        tried: 0,
        head: j,
    }
}

// What repair answers that is not refused: the c columns that it mended, and a shaped head.
pub fn mended(s: Shape, c: usize, columns: Columns) -> Answered
    ensures { result ≡ repair s c columns }
{
    Answered {
        reply: Ok(Progress::Columns(c)),
        columns,
        tried: 0,
        head: shaped(s),
    }
}

pub fn is_located(phase: Phase) -> bool
    ensures { result ≡ is_located_phase phase }
{
    matches!(phase, Phase::Located { .. })
}

pub fn is_unfinished(phase: Phase) -> bool
    ensures { result ≡ is_unfinished_phase phase }
{
    matches!(phase, Phase::Unfinished)
}

pub fn length_of(phase: Phase) -> usize
    ensures { result ≡ length_of phase }
{
    match phase {
        Phase::Located { length, .. } => length,
        _ => 0,
    }
}
