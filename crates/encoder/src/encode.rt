// Frames encoded: their sizes and data cells tested, and their rows encoded one after the other.
ghost use Rattle.std.specs.Prelude.{◌≡◌, true, ◌≤◌};
ghost use Rattle.division.specs.GeneratorPolynomial.{GeneratorPolynomial};
ghost use Rattle.frame.specs.Encode.{encoded, encode_tests};
ghost use Rattle.frame.specs.Shape.{is_shape};
ghost use Rattle.refusal.specs.Order.{first_of};
ghost use Rattle.refusal.specs.Outcome.{outcome, outcome_of};
ghost use Rattle.uniform.specs.Encodable.{EncodableFrame};

use division::generator::generator;
use division::rows::encode_row;
use frame::Shape;
use refusal::{Refusal, require};
use shapes::symbols::data_below;
use uniform::encoded::encodes_uniform;

// The generator polynomial for a check count, where that for another is at hand.
fn generator_for(b: u32, held: [u16; 65], count: usize, checks: usize) -> [u16; 65]
    requires { GeneratorPolynomial b count held × (checks ≤ 64) }
    ensures { GeneratorPolynomial b checks result }
{
    if checks == count {
        held
    } else {
        generator(b, checks)
    }
}

// The check cells filled from the data cells, row after row.
fn fill_checks(s: Shape, frame: &mut [u16])
    requires { EncodableFrame s frame.old }
    ensures { frame.new ≡ encoded s frame.old }
{
    let b = s.exponent;
    let mut count = usize::from(s.checks[0]);
    let mut held = generator(b, count);
    for h in 0..s.rows {
        let checks = usize::from(s.checks[h]);
        held = generator_for(b, held, count, checks);
        count = checks;
        let a = h * s.columns;
        let e = a + s.columns;
        encode_row(&held, checks, &mut frame[a..e]);
    }
}

// The check cells are filled from the data cells; what the check cells hold before plays no part. A frame that would be uniform is left as it is.
#[tactic(auto, unfolding(frame::specs::Encode::encode_tests))]
pub fn encode_frame(s: Shape, frame: &mut [u16]) -> Result<(), Refusal>
    requires { is_shape s ≡ true }
    ensures answer { outcome_of result ≡ outcome (encode_tests s frame.old) }
    ensures left { frame.new ≡ first_of (λ k. frame.old) (encode_tests s frame.old) (encoded s frame.old) }
{
    require(frame.len() == s.rows * s.columns, Refusal::FrameSize)?;
    require(data_below(s, frame), Refusal::Symbol)?;
    require(!encodes_uniform(s, frame), Refusal::UniformFrame)?;
    fill_checks(s, frame);
    Ok(())
}
