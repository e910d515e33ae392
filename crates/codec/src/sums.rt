// Check sums of a row and of a frame.
ghost use Rattle.std.specs.Prelude.{◌≡◌, length, replicate, true, IfSome};
ghost use Rattle.factors.specs.Table.{Weights};
ghost use Rattle.codec.specs.Summable.{Summable};
ghost use Rattle.frame.specs.Frame.{WellFormed, check_sums, held_sums};
ghost use Rattle.frame.specs.Shape.{is_shape};

use factors::table::weights;
use field257::powers::powers;
use frame::Shape;
use polynomials::values::value_at;
use transform::stages::staged_sums;

// The check sums of a row x from the exponent b on, as many as there are places for them, one after the other. Each is the value of the row, as a polynomial,
// at a power of 3.
fn plain_sums(powers: &[u16; 256], b: u32, x: &[u16], sums: &mut [u16])
    requires { Summable powers.now b x.now sums.old }
    ensures { sums.new ≡ check_sums b (length x.now) (length sums.old) x.now }
{
    for (k, sum) in sums.iter_mut().enumerate() {
        *sum = value_at(powers, x, b + k as u32);
    }
}

// The same, in stages where the table for them is lent.
fn row_sums(powers: &[u16; 256], b: u32, t: Option<&[u16; 1024]>, x: &[u16], sums: &mut [u16])
    requires { Summable powers.now b x.now sums.old × IfSome t (λ w. Weights b w.now) }
    ensures { sums.new ≡ check_sums b (length x.now) (length sums.old) x.now }
{
    match t {
        Some(t) => staged_sums(t, x, sums),
        None => plain_sums(powers, b, x, sums),
    }
}

// The check sums of the rows of a frame, row after row, written over zeros.
fn sum_rows(s: Shape, t: Option<&[u16; 1024]>, frame: &[u16], sums: &mut [u16])
    requires { (is_shape s ≡ true) × WellFormed s frame.now × IfSome t (λ w. Weights s.exponent w.now) × (sums.old ≡ replicate 512 0) }
    ensures { sums.new ≡ held_sums s frame.now }
{
    let powers = powers();
    let mut at = 0;
    for h in 0..s.rows {
        let a = h * s.columns;
        let e = a + s.columns;
        let to = at + usize::from(s.checks[h]);
        row_sums(&powers, s.exponent, t, &frame[a..e], &mut sums[at..to]);
        at = to;
    }
}

// Whether there is so little to sum that stages gain nothing: measured, their table costs as much as 512 products one after the other, and so does each row.
// All eight counts are added, since a loop of eight has no jumps: those of rows that are not there are 0 in the shapes that calls make.
fn is_little(s: Shape) -> bool
    requires { is_shape s ≡ true }
{
    let mut checks = 0;
    for count in &s.checks {
        checks += usize::from(*count);
    }
    checks * s.columns < 512 * (s.rows + 1)
}

// The check sums of the rows of a frame, row after row, and zeros after them. A caller that keeps them has them written where it keeps them: an array
// that is returned is copied there once more. The table for stages is made where they gain something.
pub fn write_sums(s: Shape, frame: &[u16], sums: &mut [u16; 512])
    requires { (is_shape s ≡ true) × WellFormed s frame.now }
    ensures { sums.new ≡ held_sums s frame.now }
{
    *sums = [0u16; 512];
    if is_little(s) {
        sum_rows(s, None, frame, sums);
    } else {
        sum_rows(s, Some(&weights(s.exponent)), frame, sums);
    }
}

// The same, returned.
pub fn frame_sums(s: Shape, frame: &[u16]) -> [u16; 512]
    requires { (is_shape s ≡ true) × WellFormed s frame.now }
    ensures { result ≡ held_sums s frame.now }
{
    let mut sums = [0u16; 512];
    write_sums(s, frame, &mut sums);
    sums
}
