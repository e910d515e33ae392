// What the library answers, with the number of a refusal (SPECIFICATION.md, "Refusals") in place of its name: the second implementations know none of the
// library's names, and so the numbers are tried too.
ghost use Rattle.std.specs.Prelude.{◌≡◌};
ghost use Rattle.plain_frames.specs.Answers.{told, told_columns};

use job::Progress;
use refusal::Refusal;

pub fn numbered<T>(answer: Result<T, Refusal>) -> Result<T, u32>
    ensures { result ≡ told answer }
{
    match answer {
        Ok(x) => Ok(x),
        Err(why) => Err(u32::from(why)),
    }
}

// The number of columns; 0 where the locate is unfinished.
pub fn of_reply(reply: Result<Progress, Refusal>) -> Result<usize, u32>
    ensures { result ≡ told_columns reply }
{
    match reply {
        Ok(Progress::Columns(n)) => Ok(n),
        Ok(Progress::Unfinished) => Ok(0),
        Err(why) => Err(u32::from(why)),
    }
}
