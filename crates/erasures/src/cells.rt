// Declared cells as they are held: 32 words, four for each of eight rows, in the form of the marks.
ghost use Rattle.std.specs.Prelude.{◌≡◌, true, ◌-◌, ◌<◌, length};
ghost use Rattle.columns.specs.Columns.{members};
ghost use Rattle.decoding.specs.Remaining.{left_reach};
ghost use Rattle.erasures.specs.Rows.{row_declarable};
ghost use Rattle.frame.specs.DeclaredCells.{declarable, declared_by, nothing_declared};
ghost use Rattle.frame.specs.Shape.{is_shape};

use columns::{Columns, next, size};
use frame::Shape;

// Whether no cell is declared. All words are read, with no way out between, so that several are compared at once.
pub fn nothing(declared: &[u64; 32]) -> bool
    ensures { result ≡ nothing_declared declared.now }
{
    let mut none = true;
    for word in declared {
        none &= *word == 0;
    }
    none
}

// The declared columns of row h.
pub fn cells_of(declared: &[u64; 32], h: usize) -> Columns
    requires { h < 8 }
    ensures { result ≡ declared_by declared.now h }
{
    let a = 4 * h;
    Columns {
        words: [
            declared[a],
            declared[a + 1],
            declared[a + 2],
            declared[a + 3],
        ],
    }
}

// Whether the columns can be declared of row h: none is past the last column, and there are no more than checks; none at all past the last row.
fn row_declarable(s: Shape, set: Columns, h: usize) -> bool
    requires { is_shape s ≡ true }
    ensures { result ≡ row_declarable s set h }
{
    if h >= s.rows {
        return next(set, 0) == 256;
    }
    next(set, s.columns) == 256 && size(set) <= usize::from(s.checks[h])
}

// Whether the cells can be declared of a frame of the shape.
pub fn is_declarable(s: Shape, declared: &[u64; 32]) -> bool
    requires { is_shape s ≡ true }
    ensures { result ≡ declarable s (declared_by declared.now) }
{
    for h in 0..8 {
        if !row_declarable(s, cells_of(declared, h), h) {
            return false;
        }
    }
    true
}

// What is left of a row's checks: none where as many cells are declared, or more.
pub fn checks_left(checks: u16, set: Columns) -> usize
    ensures { result ≡ checks - length (members set) }
{
    usize::from(checks).saturating_sub(size(set))
}

// Whether every row has at least c checks left.
pub fn left_reach(s: Shape, declared: &[u64; 32], c: usize) -> bool
    requires { is_shape s ≡ true }
    ensures { result ≡ left_reach s (declared_by declared.now) c }
{
    for h in 0..s.rows {
        if checks_left(s.checks[h], cells_of(declared, h)) < c {
            return false;
        }
    }
    true
}
