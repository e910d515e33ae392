// What crosses the C interface, as structs of numbers and arrays, and what it stands for: heads of jobs both ways, answers on the way out.
#![tactic(auto)]

pub mod answers;
pub mod head;

#[repr(C)]
#[derive(Clone, Copy)]
pub struct CRegister {
    pub refusal: u32,
    pub alone: u32,
    pub length: usize,
}

#[repr(C)]
#[derive(Clone, Copy)]
pub struct CColumns {
    pub refusal: u32,
    pub tried: usize,
    pub marks: [u64; 4],
}

// The head of a job. The header's struct of a job has the arrays beside it, and lends them.
#[repr(C)]
#[derive(Clone, Copy)]
pub struct CHead {
    pub phase: u32,
    pub alone: u32,
    pub length: usize,
    pub rows: usize,
    pub columns: usize,
    pub marks: [u64; 4],
    pub checks: [u16; 8],
    pub exponent: u32,
}

#[repr(C)]
#[derive(Clone, Copy)]
pub struct CShaped {
    pub refusal: u32,
    pub head: CHead,
}

#[repr(C)]
#[derive(Clone, Copy)]
pub struct CAnswer {
    pub refusal: u32,
    pub unfinished: u32,
    pub count: usize,
    pub tried: usize,
    pub marks: [u64; 4],
}

#[repr(C)]
#[derive(Clone, Copy)]
pub struct CPeeked {
    pub refusal: u32,
    pub length: usize,
}

#[repr(C)]
#[derive(Clone, Copy)]
pub struct CAnswered {
    pub answer: CAnswer,
    pub head: CHead,
}

// What a turn among eight jobs answers: the number of the job that it served, 8 where none is unfinished, and what the step said.
#[repr(C)]
#[derive(Clone, Copy)]
pub struct CTurned {
    pub job: usize,
    pub answer: CAnswer,
}
