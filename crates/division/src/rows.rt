// A row completed at its first m columns by polynomial division. The check sums are values of the row as a polynomial,
// and a multiple of the generator polynomial has check sums 0. So what is left of the data after division by it has the
// data's check sums, and stands in the check cells with its sign changed.
ghost use Rattle.std.specs.Prelude.{◌≡◌, cond, ℕ, suc, ◌+◌, ◌-◌, ◌*◌, ◌%◌, ◌≤◌, ◌<◌, ltb, length, get_or};
ghost use Rattle.columns.specs.Columns.{columns_of};
ghost use Rattle.division.specs.Dividends.{Dividend, EncodableRow};
ghost use Rattle.division.specs.GeneratorPolynomial.{GeneratorPolynomial};
ghost use Rattle.frame.specs.Completion.{completed};
ghost use Rattle.frame.specs.Frame.{check_sum};
ghost use Rattle.lists.specs.Tabulate.{tabulate};

use field::narrow::product;

// The data of a row, with zeros in its first m columns and after it.
fn data_cells(row: &[u16], m: usize) -> [u32; 256]
    requires { (m ≤ length row.now) × (length row.now ≤ 256) }
    ensures { (k : ℕ) → get_or result k 0 ≡ cond (ltb k m) 0 (get_or row.now k 0) }
{
    let mut cells = [0u32; 256];
    for i in m..row.len() {
        cells[i] = u32::from(row[i]);
    }
    cells
}

// Adds w times x to the cells.
fn add_multiple(cells: &mut [u32], x: &[u16], w: u16)
    requires { (length cells.old ≡ length x.now)
        × ((k : ℕ) → k < length x.now → get_or cells.old k 0 + get_or x.now k 0 * w < 4294967296) }
    ensures { cells.new
        ≡ tabulate (length x.now) (λ k. get_or cells.old k 0 + get_or x.now k 0 * w) }
{
    for a in 0..x.len() {
        cells[a] += product(x[a], w);
    }
}

// What is left in the first m cells has the check sums of all cells at entry, from whichever exponent on the generator has them 0.
// Cells are not reduced: 256 products of 256 and 256 fit beside a symbol.
fn divide(cells: &mut [u32], generator: &[u16], m: usize)
    requires { Dividend cells.old generator.now m }
    ensures { (b : ℕ) → GeneratorPolynomial b m generator.now → (j : ℕ) → j < m
        → check_sum b m cells.new (suc j) ≡ check_sum b (length cells.old) cells.old (suc j) }
{
    for i in (m..cells.len()).rev() {
        let leading = (cells[i] % 257) as u16;
        let a = i - m;
        add_multiple(&mut cells[a..i], &generator[0..m], leading);
    }
}

// The first m symbols of a row become the negatives of the cells.
fn put_negatives(row: &mut [u16], cells: &[u32], m: usize)
    requires { (m ≤ length row.old) × (m ≤ length cells.now) }
    ensures { row.new ≡ tabulate (length row.old)
        (λ k. cond (ltb k m) ((257 - get_or cells.now k 0 % 257) % 257) (get_or row.old k 0)) }
{
    for k in 0..m {
        row[k] = ((257 - cells[k] % 257) % 257) as u16;
    }
}

// The row completed at its first m columns, whose generator polynomial is lent.
pub fn encode_row(generator: &[u16], m: usize, row: &mut [u16])
    requires { EncodableRow generator.now m row.old }
    ensures { (b : ℕ) → GeneratorPolynomial b m generator.now
        → row.new ≡ completed b (length row.old) (columns_of (λ i. ltb i m)) row.old }
{
    let n = row.len();
    let mut cells = data_cells(row, m);
    divide(&mut cells[0..n], generator, m);
    put_negatives(row, &cells, m);
}
