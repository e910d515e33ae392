// The refusals that the calls of the library answer, each with its number (SPECIFICATION.md, "Refusals").
#![tactic(auto)]

ghost use Rattle.std.specs.Prelude.{◌≡◌, cond};
ghost use Rattle.refusal.specs.Number.{number};
ghost use Rattle.refusal.specs.Outcome.{outcome_of, passed, refused};

#[derive(Clone, Copy, PartialEq, Eq)]
pub enum Refusal {
    Modulus = 1,
    Count = 2,
    Lengths = 3,
    Symbol = 4,
    Columns = 5,
    Checks = 6,
    FrameSize = 7,
    TapBuffer = 8,
    BadRecord = 9,
    Empty = 21,
    NotLocated = 22,
    SumsDiffer = 23,
    NotAlone = 24,
    ShortRow = 25,
    NoFrame = 26,
    BadCells = 31,
    Exponent = 32,
    NotUnfinished = 33,
    UniformFrame = 34,
}

impl From<Refusal> for u32 {
    ghost from_gives = { λ r n. n ≡ number r };

    fn from(r: Refusal) -> u32 {
        r as u32
    }
}

// A test of the input: it passes where `holds` is true, and else refuses for the reason `why`.
pub fn require(holds: bool, why: Refusal) -> Result<(), Refusal>
    ensures { outcome_of result ≡ cond holds passed (refused (number why)) }
{
    if holds { Ok(()) } else { Err(why) }
}
