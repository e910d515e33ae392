// Which shapes there are.
ghost use Rattle.std.specs.Prelude.{◌≡◌, ◌&&◌, ◌≤◌, leb, ltb, length};
ghost use Rattle.frame.specs.Shape.{checks_in_range, columns_in_range, exponent_in_range, is_shape, rows_in_range, shape_of, shape_tests};
ghost use Rattle.refusal.specs.Outcome.{outcome, outcome_of};

use frame::Shape;
use lists::arrays::padded;
use refusal::{Refusal, require};

// Whether there are 1 to 8 rows.
#[tactic(auto, unfolding(frame::specs::Shape::rows_in_range))]
fn rows_in_range(rows: usize) -> bool
    ensures { result ≡ rows_in_range rows }
{
    (1..=8).contains(&rows)
}

// Whether there are 2 to 256 columns.
#[tactic(auto, unfolding(frame::specs::Shape::columns_in_range))]
pub fn columns_in_range(columns: usize) -> bool
    ensures { result ≡ columns_in_range columns }
{
    (2..=256).contains(&columns)
}

// Whether a check count is 1 to 64 and leaves a column for data.
fn count_in_range(columns: usize, count: u16) -> bool
    ensures { result ≡ (leb 1 count && (leb count 64 && ltb count columns)) }
{
    (1..=64).contains(&count) && usize::from(count) < columns
}

// Whether the first check counts, as many as there are rows, are in range.
fn checks_in_range(columns: usize, rows: usize, checks: &[u16]) -> bool
    requires { rows ≤ length checks.now }
    ensures { result ≡ checks_in_range columns rows checks.now }
{
    checks[..rows]
        .iter()
        .all(|count| count_in_range(columns, *count))
}

// Whether an exponent is 0 to 255.
#[tactic(auto, unfolding(frame::specs::Shape::exponent_in_range))]
fn exponent_in_range(exponent: u32) -> bool
    ensures { result ≡ exponent_in_range exponent }
{
    exponent <= 255
}

// The refusals of a shape.
#[tactic(auto, unfolding(frame::specs::Shape::shape_tests))]
pub fn check_shape(columns: usize, checks: &[u16], exponent: u32) -> Result<(), Refusal>
    ensures { outcome_of result ≡ outcome (shape_tests columns checks.now exponent) }
{
    let rows = checks.len();
    require(rows_in_range(rows), Refusal::Count)?;
    require(columns_in_range(columns), Refusal::Columns)?;
    require(checks_in_range(columns, rows, checks), Refusal::Checks)?;
    require(exponent_in_range(exponent), Refusal::Exponent)
}

// The shape of the columns, check counts and exponent given; there are not too many check counts.
#[tactic(auto, unfolding(frame::specs::Shape::shape_of))]
pub fn shape_of(columns: usize, checks: &[u16], exponent: u32) -> Shape
    requires { length checks.now ≤ 8 }
    ensures { result ≡ shape_of columns checks.now exponent }
{
    Shape {
        rows: checks.len(),
        columns,
        checks: padded::<8>(checks),
        exponent,
    }
}

// Whether rows, columns, check counts and exponent are those of a shape.
#[tactic(auto, unfolding(frame::specs::Shape::is_shape, frame::specs::Shape::rows_in_range))]
pub fn in_range(rows: usize, columns: usize, checks: &[u16; 8], exponent: u32) -> bool
    ensures { result ≡ is_shape (record { rows = rows; columns = columns; checks = checks.now; exponent = exponent }) }
{
    rows_in_range(rows)
        && columns_in_range(columns)
        && checks_in_range(columns, rows, checks)
        && exponent_in_range(exponent)
}

// Whether a value of the struct is a shape.
pub fn is_shape(s: Shape) -> bool
    ensures { result ≡ is_shape s }
{
    in_range(s.rows, s.columns, &s.checks, s.exponent)
}
