// Reasons to refuse, each told by its number (SPECIFICATION.md, "Refusals").
ghost use Rattle.std.specs.Prelude.{◌≡◌, true, false, MatchResult};

// A test of the input: it passes where `holds` is true, and else refuses by `number`.
pub fn require(holds: bool, number: u32) -> Result<(), u32>
    ensures { MatchResult result (λ u. holds ≡ true) (λ n. (holds ≡ false) × (n ≡ number)) }
{
    if holds { Ok(()) } else { Err(number) }
}
