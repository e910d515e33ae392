// Mending a row at a set of columns of its own, which it shares with no other row: the symbols at all columns are read off side by side.
ghost use Rattle.std.specs.Prelude.{◌≡◌, length};
ghost use Rattle.completion.specs.Mendable.{MendableRow};
ghost use Rattle.field257.specs.Table.{table};
ghost use Rattle.frame.specs.Completion.{completed};

use crate::cell::plus;
use columns::Columns;
use lanes::symbols::symbols;

// The row completed at the set, given the check sums that it has, which begin at the exponent b.
pub fn mend_row(powers: &[u16; 256], b: u32, set: Columns, sums: &[u16], row: &mut [u16])
    requires { (powers.now ≡ table) × MendableRow b set sums.now row.old }
    ensures { row.new ≡ completed b (length row.old) set row.old }
{
    let symbols = symbols(powers, b, set, sums);
    for (k, i) in set.members().enumerate() {
        row[i] = plus(row[i], symbols[k]);
    }
}
