// Answers and refusals as structs and numbers of C.
ghost use Rattle.std.specs.Prelude.{List, ◌≡◌, ℕ};
ghost use Rattle.finder.specs.Finder.{answer_of as Finder·answerOf};
ghost use Rattle.job.specs.Answers.{checked_answer, reply_answer, peeked_answer, answered_outcome};
ghost use Rattle.job.specs.Calls.{unfinished};
ghost use Rattle.job.specs.Job.{Arrays, no_columns, unfinished_job};
ghost use Rattle.search.specs.Search.{answer_of as Search·answerOf};
ghost use Rattle.mirror.specs.Mirror.{refusal_of, register_of, columns_for, peeked_of, head_of, answer_of, answered_of};

use crate::head::mirror_of;
use crate::{CAnswer, CAnswered, CColumns, CHead, CPeeked, CRegister};
use columns::Columns;
use finder::Register;
use job::{Answered, Progress};
use refusal::Refusal;
use search::Sought;

// 0 where nothing is refused.
pub fn refusal_of(v: Result<(), Refusal>) -> u32
    ensures { result ≡ refusal_of (checked_answer v) }
{
    match v {
        Ok(()) => 0,
        Err(why) => u32::from(why),
    }
}

pub fn register_of(found: Result<Register, Refusal>) -> CRegister
    ensures { result ≡ register_of (Finder·answerOf found) }
{
    let (refusal, alone, length) = match found {
        Ok(register) => (0, register.alone, register.length),
        Err(why) => (u32::from(why), false, 0),
    };
    CRegister {
        refusal,
        alone: u32::from(alone),
        length,
    }
}

#[tactic(auto, unfolding(columns::specs::Columns::columns_of, columns::specs::Columns::number))]
pub fn columns_of(found: Result<Sought, Refusal>) -> CColumns
    ensures { result ≡ columns_for (Search·answerOf found) }
{
    match found {
        Ok(sought) => {
            let marks = sought.columns.words;
            CColumns {
                refusal: 0,
                tried: sought.tried,
                marks,
            }
        }
        Err(why) => CColumns {
            refusal: u32::from(why),
            tried: 0,
            marks: [0; 4],
        },
    }
}

pub fn peeked_of(p: Result<usize, Refusal>) -> CPeeked
    ensures { result ≡ peeked_of (peeked_answer p) }
{
    match p {
        Ok(length) => CPeeked { refusal: 0, length },
        Err(why) => CPeeked {
            refusal: u32::from(why),
            length: 0,
        },
    }
}

pub fn answer_of(reply: Result<Progress, Refusal>, columns: Columns, tried: usize) -> CAnswer
    ensures { result ≡ answer_of (reply_answer reply) columns tried }
{
    let (refusal, unfinished, count) = match reply {
        Ok(Progress::Columns(c)) => (0, 0, c),
        Ok(Progress::Unfinished) => (0, 1, 0),
        Err(why) => (u32::from(why), 0, 0),
    };
    let marks = columns.words;
    CAnswer {
        refusal,
        unfinished,
        count,
        tried,
        marks,
    }
}

pub fn answered_of(a: Answered) -> CAnswered
    ensures { (b : Arrays) (f : List ℕ) → result ≡ answered_of (answered_outcome a b f) }
{
    CAnswered {
        answer: answer_of(a.reply, a.columns, a.tried),
        head: mirror_of(a.head),
    }
}

// What a step answers that leaves the job of a head unfinished. The struct is made of the head's as it is, with no `Answered` between.
pub fn unfinished_of(m: CHead) -> CAnswered
    ensures { (b : Arrays) (f : List ℕ) → result ≡
        answered_of (record { answer = unfinished; marks = no_columns; tried = 0; job = unfinished_job (head_of m).shape b; frame = f }) }
{
    let marks = [0; 4];
    let answer = CAnswer {
        refusal: 0,
        unfinished: 1,
        count: 0,
        tried: 0,
        marks,
    };
    let head = CHead {
        phase: 3,
        alone: 0,
        length: 0,
        marks,
        ..m
    };
    CAnswered { answer, head }
}
