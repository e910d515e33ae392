// Whether encoding makes a frame uniform: its data cells hold one symbol, and that symbol in every cell makes all check sums 0.
ghost use Rattle.std.specs.Prelude.{◌≡◌, true, ◌*◌, ◌<◌, length};
ghost use Rattle.frame.specs.Encode.{encoded};
ghost use Rattle.frame.specs.Frame.{uniform};
ghost use Rattle.frame.specs.Shape.{checks_of, is_shape};
ghost use Rattle.lists.specs.Tabulate.{every};
ghost use Rattle.uniform.specs.Constant.{constant_coded, data_hold};
ghost use Rattle.uniform.specs.Encodable.{EncodableFrame};

use crate::constant::rows_coded;
use crate::holds::all_hold;
use frame::Shape;
use shapes::symbols::data_cells;

// Whether every data cell holds a.
fn data_hold(s: Shape, frame: &[u16], a: u16) -> bool
    requires { (is_shape s ≡ true) × (length frame.now ≡ s.rows * s.columns) }
    ensures { result ≡ data_hold s frame.now a }
{
    for h in 0..s.rows {
        if !all_hold(data_cells(s, frame, h), a) {
            return false;
        }
    }
    true
}

// Whether a in every cell makes all check sums 0.
fn checks_coded(s: Shape, a: u16) -> bool
    requires { (is_shape s ≡ true) × (a < 257) }
    ensures { result ≡ every s.rows (λ h. constant_coded s.exponent s.columns a (checks_of s h)) }
{
    rows_coded(s, a, |h| usize::from(s.checks[h]))
}

// Whether the frame is uniform once it is encoded. The last cell of row 0 is a data cell; most frames differ from it at once.
pub fn encodes_uniform(s: Shape, frame: &[u16]) -> bool
    requires { EncodableFrame s frame.now }
    ensures { result ≡ uniform (encoded s frame.now) }
{
    let a = frame[s.columns - 1];
    data_hold(s, frame, a) && checks_coded(s, a)
}
