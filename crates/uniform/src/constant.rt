// The check sums of rows that hold one symbol.
ghost use Rattle.std.specs.Prelude.{◌≡◌, ℕ, ◌<◌};
ghost use Rattle.frame.specs.declared.Shape.{Shape};
ghost use Rattle.lists.specs.Tabulate.{every};
ghost use Rattle.uniform.specs.Constant.{Summed, SummedRows, constant_coded};

use field257::powers::powers;
use frame::Shape;
use polynomials::values::value_at;

// Whether the first m check sums of n cells that all hold a are 0. Each is the value of the row, as a polynomial, at a power of 3. Those of zeros
// are 0.
pub fn constant_coded(b: u32, n: usize, a: u16, m: usize) -> bool
    requires { Summed b n a m }
    ensures { result ≡ constant_coded b n a m }
{
    if a == 0 {
        return true;
    }
    let powers = powers();
    let row = [a; 256];
    for j in 0..m {
        if value_at(&powers, &row[..n], b + j as u32) != 0 {
            return false;
        }
    }
    true
}

// Whether a in every cell makes the first check sums of each row h 0, as many as `count` says. All rows are alike then, so the sums are made once, as many as
// the row with most has.
pub fn rows_coded<F: Fn(usize) -> usize>(s: Shape, a: u16, count: F) -> bool
    requires { SummedRows s a (F.pre count) (F.post count) }
    ensures { (m : ℕ → ℕ) → ((h n : ℕ) → h < s.rows → F.post count h n → n ≡ m h) → result ≡ every s.rows (λ h. constant_coded s.exponent s.columns a (m h)) }
{
    let mut most: usize = 0;
    for h in 0..s.rows {
        most = most.max(count(h));
    }
    constant_coded(s.exponent, s.columns, a, most)
}
