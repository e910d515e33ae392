// What the dispatcher answers of a job, without its head.
ghost use Rattle.std.specs.Prelude.{List, [], ◌≡◌, ℕ};
ghost use Rattle.dispatch.specs.Told.{told_by, nobody, said_told};
ghost use Rattle.job.specs.Answers.{answered_outcome};
ghost use Rattle.job.specs.Calls.{unfinished};
ghost use Rattle.job.specs.Job.{Arrays, no_columns};

use crate::Said;
use job::{Answered, Progress};
use refusal::Refusal;

pub fn said(r: Answered) -> Said
    ensures { (a : Arrays) (f : List ℕ) → said_told result f ≡ told_by (answered_outcome r a f) }
{
    Said {
        reply: r.reply,
        columns: r.columns,
        tried: r.tried,
    }
}

// There is no job of the number, or, in a turn, none that is unfinished.
pub fn no_job() -> Said
    ensures { (f : List ℕ) → said_told result f ≡ nobody f }
{
    Said {
        reply: Err(Refusal::NotUnfinished),
        columns: columns::empty(),
        tried: 0,
    }
}

pub fn still_unfinished() -> Said
    ensures { said_told result [] ≡ record { answer = unfinished; marks = no_columns; tried = 0; frame = [] } }
{
    Said {
        reply: Ok(Progress::Unfinished),
        columns: columns::empty(),
        tried: 0,
    }
}
