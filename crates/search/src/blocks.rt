// The search in one block of columns.
ghost use Rattle.search.specs.Block.{Blockable, Tried};

use crate::values::values;
use columns::mark;

// How many columns are left to find, and how many were tried.
#[derive(Clone, Copy)]
pub struct Trial {
    pub left: usize,
    pub tried: usize,
}

// Works out the values at the 64 columns from `from` on, then tries these, as far as there are columns, and ends with the last one to find, of which `wanted`
// are left. A column is a root where the reversed taps have the value 0 at its locator.
pub fn try_block(
    powers: &[u16],
    taps: &[u16],
    columns: usize,
    from: usize,
    wanted: usize,
    words: &mut [u64; 4],
) -> Trial
    requires { Blockable powers.now taps.now columns from wanted words.old }
    ensures { Tried taps.now columns from words.new result }
{
    let end = from + 64;
    let v = values(taps, &powers[from..end]);
    let to = end.min(columns);
    let mut left = wanted;
    for i in from..to {
        if v[i - from] % 257 == 0 {
            mark(words, i);
            left -= 1;
            if left == 0 {
                return Trial { left, tried: i + 1 };
            }
        }
    }
    Trial { left, tried: to }
}
