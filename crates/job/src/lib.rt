// The job of the receiving end: its types, and the mathematics of its calls. There are no functions here (SPECIFICATION.md, "Jobs").
#![tactic(auto)]

use columns::Columns;
use frame::Shape;
use refusal::Refusal;

// Where a job stands. An unfinished one was started to locate in slices. What a located one has found carries the length of the register, which is the number
// of columns to mend, and whether the register is alone.
#[derive(Clone, Copy)]
pub enum Phase {
    Empty,
    Shaped,
    Unfinished,
    Located { length: usize, alone: bool },
}

// The head of a job, which the calls take and return by value; its columns are those that locating named. The arrays of a job stand beside it, lent to the
// calls and written in place: the check sums of all rows, row after row, `[u16; 512]`, the taps of the register, `[u16; 65]`, the declared cells, `[u64; 32]`,
// and those of a search for a register in slices (crate `slices`).
#[derive(Clone, Copy)]
pub struct Head {
    pub phase: Phase,
    pub shape: Shape,
    pub columns: Columns,
}

// What start, step, locate and repair answer where they do not refuse: the number of columns; or that the locate is unfinished, as start and step do.
#[derive(Clone, Copy)]
pub enum Progress {
    Columns(usize),
    Unfinished,
}

// What start, step, locate and repair return: the answer, the columns, none where it refuses, how many columns were tried in a search for them, and the job's
// head as the call leaves it.
#[derive(Clone, Copy)]
pub struct Answered {
    pub reply: Result<Progress, Refusal>,
    pub columns: Columns,
    pub tried: usize,
    pub head: Head,
}
