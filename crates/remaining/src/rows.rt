// What is left of the check sums of all rows when the declared cells are taken out of them: the sequences that a register is sought for.
ghost use Rattle.frame.specs.DeclaredCells.{declared_by};
ghost use Rattle.remaining.specs.Removable.{RemovableRows};
ghost use Rattle.remaining.specs.SequencesLeft.{SequencesLeft};

use crate::row::remaining;
use columns::size;
use erasures::cells::cells_of;
use field257::powers::powers;
use frame::Shape;

// The lengths of the sequences; their symbols, one sequence after the other; how many symbols these are.
// Kept as a buffer of fixed size with its count beside: the library has no heap, and so no Vec.
#[derive(Clone, Copy)]
pub struct Left {
    pub lengths: [u16; 8],
    pub symbols: [u16; 512],
    pub count: usize,
}

// What is left of each row, row after row.
pub fn all_remaining(s: Shape, declared: &[u64; 32], sums: &[u16; 512]) -> Left
    requires { RemovableRows s (declared_by declared.now) sums.now }
    ensures { SequencesLeft s (declared_by declared.now) sums.now result }
{
    let powers = powers();
    let mut lengths = [0u16; 8];
    let mut symbols = [0u16; 512];
    let mut count: usize = 0;
    let mut at: usize = 0;
    for h in 0..s.rows {
        let checks = usize::from(s.checks[h]);
        let cells = cells_of(declared, h);
        let left = checks - size(cells);
        let to = at + checks;
        let end = count + left;
        remaining(&powers, cells, &sums[at..to], &mut symbols[count..end]);
        lengths[h] = left as u16;
        count = end;
        at = to;
    }
    Left {
        lengths,
        symbols,
        count,
    }
}
