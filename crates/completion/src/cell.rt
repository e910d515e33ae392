// Mending a cell of a row: the symbol is read off the check sums that the row has as it was received, which are at hand, and
// added to what the cell holds; so no row is summed again.
ghost use Rattle.std.specs.Prelude.{◌≡◌, ◌+◌, ◌%◌, length};
ghost use Rattle.completion.specs.Mendable.{MendableCell};
ghost use Rattle.completion.specs.Mending.{mended_cell};

use weights::read::read_off;

// A cell with what was read off added.
pub fn plus(cell: u16, symbol: u16) -> u16
    ensures { result ≡ (cell + symbol) % 257 }
{
    ((u32::from(cell) + u32::from(symbol)) % 257) as u16
}

// The row with its symbol at column i mended.
pub fn mend_cell(row: &mut [u16], i: usize, coefficients: &[u16], sums: &[u16])
    requires { MendableCell row.old i coefficients.now sums.now }
    ensures { row.new ≡ mended_cell (length row.old) coefficients.now sums.now i row.old }
{
    let symbol = read_off(coefficients, sums);
    row[i] = plus(row[i], symbol);
}
