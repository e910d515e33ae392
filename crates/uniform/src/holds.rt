// Which cells hold one symbol.
ghost use Rattle.std.specs.Prelude.{◌≡◌, ◌||◌, eqb, length, get_or};
ghost use Rattle.columns.specs.Columns.{has};
ghost use Rattle.lists.specs.Tabulate.{every};

use columns::{Columns, contains};

// Whether every cell holds a. The first that does not ends it.
pub fn all_hold(cells: &[u16], a: u16) -> bool
    ensures { result ≡ every (length cells.now) (λ k. eqb (get_or cells.now k 0) a) }
{
    cells.iter().all(|x| *x == a)
}

// Whether every cell of a row outside the set holds a. The set is looked at only where a cell holds another symbol.
pub fn kept_hold(cells: &[u16], set: Columns, a: u16) -> bool
    ensures { result ≡ every (length cells.now) (λ k. has set k || eqb (get_or cells.now k 0) a) }
{
    cells
        .iter()
        .enumerate()
        .all(|(k, x)| *x == a || contains(set, k))
}
