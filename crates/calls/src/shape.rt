// Giving a job its shape. Its arrays are neither read nor written.
ghost use Rattle.std.specs.Prelude.{◌≡◌};
ghost use Rattle.job.specs.Answers.{shape_outcome};
ghost use Rattle.job.specs.Calls.{shape, step};
ghost use Rattle.job.specs.Job.{Arrays, beside};

use heads::states::shaped;
use job::Head;
use refusal::Refusal;
use shapes::shape::{check_shape, shape_of};

// The head that is left; where it refuses, the one that was passed is kept. No head plays a part in what is answered.
pub fn shape(j: Head, columns: usize, checks: &[u16], exponent: u32) -> Result<Head, Refusal>
    ensures { (a : Arrays) → shape_outcome (beside j a) result ≡ step (beside j a) (shape columns checks.now exponent) }
{
    check_shape(columns, checks, exponent)?;
    Ok(shaped(shape_of(columns, checks, exponent)))
}
