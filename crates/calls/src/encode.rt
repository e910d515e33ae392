// Encoding: the job is read for its shape, and kept. Its arrays play no part.
ghost use Rattle.std.specs.Prelude.{◌≡◌};
ghost use Rattle.job.specs.Answers.{encode_outcome};
ghost use Rattle.job.specs.Calls.{encode, step};
ghost use Rattle.job.specs.Job.{Arrays, beside};

use encoder::encode::encode_frame;
use heads::sound::counts_as_empty;
use job::Head;
use refusal::Refusal;

pub fn encode(j: Head, frame: &mut [u16]) -> Result<(), Refusal>
    ensures { (a : Arrays) → encode_outcome (beside j a) result frame.new ≡ step (beside j a) (encode frame.old) }
{
    if counts_as_empty(j) {
        return Err(Refusal::Empty);
    }
    encode_frame(j.shape, frame)
}
