// What the dispatcher of eight jobs answers, what each of its functions promises, and the laws of that (SPECIFICATION.md, "Eight jobs").
#![tactic(auto)]

use columns::Columns;
use job::Progress;
use refusal::Refusal;

pub mod answers;

// What locate, repair, start and step answer: an `Answered` without the head, which stays with the dispatcher.
#[derive(Clone, Copy)]
pub struct Said {
    pub reply: Result<Progress, Refusal>,
    pub columns: Columns,
    pub tried: usize,
}

// What a turn answers: the number of the job that it served, 8 where none is unfinished (as the C interface tells it), and what the step said.
#[derive(Clone, Copy)]
pub struct Turned {
    pub job: usize,
    pub said: Said,
}
