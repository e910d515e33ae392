// Repair: the rows of a frame completed at their marked and declared columns, unless that would make it uniform. Where the job holds no declared cells the
// frame is looked at as it stands.
ghost use Rattle.std.specs.Prelude.{◌≡◌, true};
ghost use Rattle.calls.specs.Whole.{RepairDoes, Repairable, RepairedWhole};
ghost use Rattle.frame.specs.DeclaredCells.{declared_by};
ghost use Rattle.frame.specs.Shape.{is_shape};
ghost use Rattle.job.specs.Calls.{same_sums};
ghost use Rattle.job.specs.Job.{declared_sound};

use codec::sums::frame_sums;
use completion::mend::mend;
use erasures::cells::{is_declarable, left_reach, nothing};
use erasures::fill::fill;
use erasures::reading::{check_read, sums_read};
use frame::Shape;
use heads::sound::counts_as_empty;
use heads::states::{is_located, length_of, mended, refuse, shaped};
use job::{Answered, Head};
use refusal::Refusal;
use shapes::symbols::check_frame;
use uniform::mended::mends_uniform;

// All sums are read, with no way out between, so that several are compared at once.
fn same_sums(a: &[u16; 512], b: &[u16; 512]) -> bool
    ensures { result ≡ same_sums a.now b.now }
{
    let mut same = true;
    for k in 0..512 {
        same &= a[k] == b[k];
    }
    same
}

// With the cells that a job of length c holds a locate can have left it.
#[tactic(auto, unfolding(job::specs::Job::declared_sound))]
fn cells_sound(s: Shape, held: &[u64; 32], c: usize) -> bool
    requires { is_shape s ≡ true }
    ensures { result ≡ declared_sound s (declared_by held.now) c }
{
    is_declarable(s, held) && left_reach(s, held, c)
}

// A frame of which nothing is declared. That a locate can have left the job, its head being sound says.
fn repair_whole(j: Head, sums: &[u16; 512], held: &[u64; 32], frame: &mut [u16]) -> Answered
    requires { RepairedWhole j held.now }
    ensures { RepairDoes j sums.now held.now frame.old result frame.new }
{
    if let Err(why) = check_frame(j.shape, frame) {
        return refuse(j, why);
    }
    let summed = frame_sums(j.shape, frame);
    if !same_sums(&summed, sums) {
        return refuse(j, Refusal::SumsDiffer);
    }
    let set = j.columns;
    if mends_uniform(j.shape, held, set, frame) {
        return refuse(shaped(j.shape), Refusal::NoFrame);
    }
    mend(j.shape, set, &summed, frame);
    mended(j.shape, length_of(j.phase), set)
}

// A frame with declared cells.
fn repair_read(j: Head, sums: &[u16; 512], held: &[u64; 32], frame: &mut [u16]) -> Answered
    requires { Repairable j }
    ensures { RepairDoes j sums.now held.now frame.old result frame.new }
{
    let c = length_of(j.phase);
    if !cells_sound(j.shape, held, c) {
        return refuse(j, Refusal::NotLocated);
    }
    if let Err(why) = check_read(j.shape, held, frame) {
        return refuse(j, why);
    }
    let summed = sums_read(j.shape, held, frame);
    if !same_sums(&summed, sums) {
        return refuse(j, Refusal::SumsDiffer);
    }
    let marked = j.columns;
    if mends_uniform(j.shape, held, marked, frame) {
        return refuse(shaped(j.shape), Refusal::NoFrame);
    }
    fill(j.shape, held, marked, &summed, frame);
    mended(j.shape, c, marked)
}

// The sums and the declared cells are read, and the taps play no part: whatever they hold is left as it was.
pub fn repair(j: Head, sums: &[u16; 512], held: &[u64; 32], frame: &mut [u16]) -> Answered
    ensures { RepairDoes j sums.now held.now frame.old result frame.new }
{
    if counts_as_empty(j) {
        return refuse(j, Refusal::Empty);
    }
    if !is_located(j.phase) {
        return refuse(j, Refusal::NotLocated);
    }
    if nothing(held) {
        repair_whole(j, sums, held, frame)
    } else {
        repair_read(j, sums, held, frame)
    }
}
