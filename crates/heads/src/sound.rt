// Which heads are sound: those that calls leave are, and one that is not counts as empty.
ghost use Rattle.std.specs.Prelude.{◌≡◌, true, not, ◌||◌, ltb};
ghost use Rattle.columns.specs.Columns.{has};
ghost use Rattle.decoding.specs.Locating.{rows_reach};
ghost use Rattle.frame.specs.Shape.{is_shape};
ghost use Rattle.job.specs.Job.{findings_sound, counts_empty, head_sound};
ghost use Rattle.lists.specs.Tabulate.{every};

use columns::Columns;
use frame::Shape;
use job::{Head, Phase};
use shapes::shape::is_shape;

// No column from n on is marked.
fn marks_below(c: Columns, n: usize) -> bool
    ensures { result ≡ every 256 (λ i. not (has c i) || ltb i n) }
{
    columns::next(c, n) == 256
}

// Every row has at least c checks.
pub fn rows_reach(s: Shape, c: usize) -> bool
    requires { is_shape s ≡ true }
    ensures { result ≡ rows_reach s c }
{
    s.checks[..s.rows]
        .iter()
        .all(|count| usize::from(*count) >= c)
}

// What a located job of length c and the given alone mark must hold.
#[tactic(auto, unfolding(job::specs::Job::findings_sound))]
fn is_findings(s: Shape, marks: Columns, c: usize, alone: bool) -> bool
    requires { is_shape s ≡ true }
    ensures { result ≡ findings_sound s marks c alone }
{
    alone && marks_below(marks, s.columns) && columns::size(marks) == c && rows_reach(s, c)
}

#[tactic(auto, unfolding(job::specs::Job::head_sound, job::specs::Job::phase_sound))]
pub fn is_sound(j: Head) -> bool
    ensures { result ≡ head_sound j }
{
    match j.phase {
        Phase::Empty => true,
        Phase::Shaped | Phase::Unfinished => is_shape(j.shape),
        Phase::Located { length, alone } => {
            is_shape(j.shape) && is_findings(j.shape, j.columns, length, alone)
        }
    }
}

// The job is empty, or counts as empty since it is not sound.
#[tactic(auto, unfolding(job::specs::Job::counts_empty))]
pub fn counts_as_empty(j: Head) -> bool
    ensures { result ≡ counts_empty j }
{
    !is_sound(j) || matches!(j.phase, Phase::Empty)
}
