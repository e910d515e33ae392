// The register that is located by: the shortest one of what is left of held check sums. No test of the finder refuses them, so none is made.
ghost use Rattle.std.specs.Prelude.{◌≡◌, true, take, Ok};
ghost use Rattle.locating.specs.RegisterOf.{Findable, Registrable, LeftLent, RegisterOf};
ghost use Rattle.finder.specs.Finder.{Finds};
ghost use Rattle.frame.specs.DeclaredCells.{declared_by};
ghost use Rattle.frame.specs.Shape.{checks_of, is_shape};
ghost use Rattle.lists.specs.Total.{total};

use finder::Register;
use finder::find::synthesize;
use frame::Shape;
use remaining::rows::{Left, all_remaining};

// The number of check sums of all rows.
pub fn sum_count(s: Shape) -> usize
    requires { is_shape s ≡ true }
    ensures { result ≡ total s.rows (checks_of s) }
{
    let mut all = 0;
    for h in 0..s.rows {
        all += usize::from(s.checks[h]);
    }
    all
}

// The register of the first sequences, `all` symbols one sequence after the other; its taps go to the buffer.
fn shortest(
    rows: usize,
    lengths: [u16; 8],
    all: usize,
    symbols: &[u16],
    taps: &mut [u16],
) -> Register
    requires { Findable rows lengths all symbols.now taps.old }
    ensures { Finds 257 (take rows lengths) (take all symbols.now) taps.old taps.new (Ok result) }
{
    synthesize(257, &lengths[..rows], &symbols[..all], taps)
}

// The same of what is left when the declared cells are taken out.
fn shortest_left(s: Shape, left: Left, taps: &mut [u16]) -> Register
    requires { LeftLent s left taps.old }
    ensures { Finds 257 (take s.rows left.lengths) (take left.count left.symbols) taps.old taps.new (Ok result) }
{
    shortest(s.rows, left.lengths, left.count, &left.symbols, taps)
}

pub fn register_of(
    s: Shape,
    none: bool,
    declared: &[u64; 32],
    sums: &[u16; 512],
    taps: &mut [u16],
) -> Register
    requires { Registrable s none declared.now sums.now taps.old }
    ensures { RegisterOf s (declared_by declared.now) sums.now taps.new result }
{
    if none {
        shortest(s.rows, s.checks, sum_count(s), sums, taps)
    } else {
        shortest_left(s, all_remaining(s, declared, sums), taps)
    }
}
