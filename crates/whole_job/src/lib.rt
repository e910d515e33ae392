// A job with its arrays as one value, so that a trial can keep, copy and hand on a job as it does a number. Each call here is the library's on the parts of
// the job.
#![tactic(auto)]

ghost use Rattle.std.specs.Prelude.{[], ◌≡◌};
ghost use Rattle.job.specs.Answers.{encode_outcome, answered_outcome, peek_outcome};
ghost use Rattle.job.specs.Calls.{step, shape, encode, locate, repair, start, next, peek};
ghost use Rattle.job.specs.Job.{beside, empty_head, no_arrays};
ghost use Rattle.whole_job.specs.Whole.{arrays_of, job_of, shaped_outcome, answered_of};

use columns::Columns;
use job::{Head, Progress};
use refusal::Refusal;

// What is kept of a locate in slices, as in crate `slices`.
#[derive(Clone, Copy)]
pub struct Synthesis {
    pub counts: [u16; 5],
    pub lengths: [u16; 8],
    pub symbols: [u16; 1152],
    pub places: [u16; 8],
    pub sizes: [u16; 8],
    pub discs: [u16; 8],
    pub quotients: [u16; 8],
    pub register: [u16; 144],
    pub saved: [u16; 1152],
}

#[derive(Clone, Copy)]
pub struct Job {
    pub head: Head,
    pub sums: [u16; 512],
    pub taps: [u16; 65],
    pub declared: [u64; 32],
    pub synthesis: Synthesis,
}

// What start, step, locate and repair answer, and the job as they leave it.
#[derive(Clone, Copy)]
pub struct Answered {
    pub reply: Result<Progress, Refusal>,
    pub columns: Columns,
    pub tried: usize,
    pub job: Job,
}

// What the library's call returned, with the arrays that it left in the job.
fn with_arrays(answer: job::Answered, left: Job) -> Answered
    ensures { (answered_of result ≡ answer) × (arrays_of result.job ≡ arrays_of left) }
{
    Answered {
        reply: answer.reply,
        columns: answer.columns,
        tried: answer.tried,
        job: Job {
            head: answer.head,
            ..left
        },
    }
}

// An empty job with arrays of zeros.
pub fn empty() -> Job
    ensures { job_of result ≡ beside empty_head no_arrays }
{
    Job {
        head: heads::states::empty(),
        sums: [0; 512],
        taps: [0; 65],
        declared: [0; 32],
        synthesis: Synthesis {
            counts: [0; 5],
            lengths: [0; 8],
            symbols: [0; 1152],
            places: [0; 8],
            sizes: [0; 8],
            discs: [0; 8],
            quotients: [0; 8],
            register: [0; 144],
            saved: [0; 1152],
        },
    }
}

// The job with the shape. Where it is refused, the job is kept.
pub fn shape(j: Job, columns: usize, checks: &[u16], exponent: u32) -> Result<Job, Refusal>
    ensures { shaped_outcome j result ≡ step (job_of j) (shape columns checks.now exponent) }
{
    let head = calls::shape::shape(j.head, columns, checks, exponent)?;
    Ok(Job { head, ..j })
}

// Whether it refuses. The job is kept.
pub fn encode(j: Job, frame: &mut [u16]) -> Result<(), Refusal>
    ensures { encode_outcome (job_of j) result frame.new ≡ step (job_of j) (encode frame.old) }
{
    calls::encode::encode(j.head, frame)
}

pub fn locate(mut j: Job, declared: &[u64; 32], frame: &[u16]) -> Answered
    ensures { answered_outcome (answered_of result) (arrays_of result.job) frame.now ≡ step (job_of j) (locate declared.now frame.now) }
{
    let answer = calls::locate::locate(
        j.head,
        &mut j.sums,
        &mut j.taps,
        &mut j.declared,
        declared,
        frame,
    );
    with_arrays(answer, j)
}

pub fn repair(j: Job, frame: &mut [u16]) -> Answered
    ensures { answered_outcome (answered_of result) (arrays_of result.job) frame.new ≡ step (job_of j) (repair frame.old) }
{
    let answer = calls::repair::repair(j.head, &j.sums, &j.declared, frame);
    with_arrays(answer, j)
}

pub fn start(mut j: Job, declared: &[u64; 32], frame: &[u16]) -> Answered
    ensures { answered_outcome (answered_of result) (arrays_of result.job) frame.now ≡ step (job_of j) (start declared.now frame.now) }
{
    let answer = slicing::start::start(
        j.head,
        &mut j.sums,
        &mut j.taps,
        &mut j.declared,
        &mut j.synthesis.counts,
        &mut j.synthesis.lengths,
        &mut j.synthesis.symbols,
        &mut j.synthesis.places,
        &mut j.synthesis.sizes,
        &mut j.synthesis.discs,
        &mut j.synthesis.quotients,
        &mut j.synthesis.register,
        &mut j.synthesis.saved,
        declared,
        frame,
    );
    with_arrays(answer, j)
}

// A step.
pub fn next(mut j: Job) -> Answered
    ensures { answered_outcome (answered_of result) (arrays_of result.job) [] ≡ step (job_of j) next }
{
    let lent = &mut j;
    let answer = slicing::next::next(
        lent.head,
        &lent.sums,
        &mut lent.taps,
        &lent.declared,
        &mut lent.synthesis.counts,
        &lent.synthesis.lengths,
        &lent.synthesis.symbols,
        &mut lent.synthesis.places,
        &mut lent.synthesis.sizes,
        &mut lent.synthesis.discs,
        &mut lent.synthesis.quotients,
        &mut lent.synthesis.register,
        &mut lent.synthesis.saved,
    );
    with_arrays(answer, j)
}

// The job is kept.
pub fn peek(j: Job) -> Result<usize, Refusal>
    ensures { peek_outcome (job_of j) result ≡ step (job_of j) peek }
{
    slicing::peek::peek(
        j.head,
        &j.sums,
        &j.declared,
        &j.synthesis.counts,
        &j.synthesis.lengths,
        &j.synthesis.symbols,
        &j.synthesis.places,
        &j.synthesis.sizes,
        &j.synthesis.discs,
        &j.synthesis.quotients,
        &j.synthesis.register,
        &j.synthesis.saved,
    )
}
