// A set of columns: 256 marks in four 64-bit words, column 0 lowest. Column i is bit i mod 64 of word i / 64.
#![tactic(auto)]

pub mod rising;

ghost use Rattle.std.specs.Prelude.{◌≡◌, false, ◌&&◌, ◌||◌, ◌<◌, eqb, leb, length};
ghost use Rattle.columns.specs.Columns.{has, marking, columns_of, members, either, Sound};
ghost use Rattle.columns.specs.Listed.{least};

use std::array;

#[derive(Clone, Copy)]
pub struct Columns {
    pub words: [u64; 4],
}

// No column.
pub fn empty() -> Columns
    ensures { result ≡ columns_of (λ k. false) }
{
    Columns { words: [0; 4] }
}

// Column i is marked. No column from 256 on is.
pub fn contains(c: Columns, i: usize) -> bool
    ensures { result ≡ has c i }
{
    if i >= 256 {
        return false;
    }
    (c.words[i / 64] >> (i % 64)) & 1 == 1
}

// Marks column i in the words of a set.
pub fn mark(words: &mut [u64; 4], i: usize)
    requires { (i < 256) × Sound (marking words.old) }
    ensures { marking words.new ≡ columns_of (λ k. has (marking words.old) k || eqb k i) }
{
    words[i / 64] |= 1u64 << (i % 64);
}

// The columns of either set.
pub fn either(a: Columns, b: Columns) -> Columns
    ensures { result ≡ either a b }
{
    Columns {
        words: array::from_fn(|w| a.words[w] | b.words[w]),
    }
}

// How many columns are marked.
pub fn size(c: Columns) -> usize
    ensures { result ≡ length (members c) }
{
    let mut marked = 0;
    for word in c.words {
        marked += word.count_ones() as usize;
    }
    marked
}

// The least marked column at or after `from`, or 256 where there is none: what is left of a word is shifted down,
// and its trailing zeros are the columns to pass; a word with nothing left is passed whole. Kept as a number, since it is the bound that most callers compare with.
pub fn next(c: Columns, from: usize) -> usize
    ensures { result ≡ least 256 (λ k. leb from k && has c k) }
{
    let mut at = from;
    for w in from / 64..4 {
        let left = c.words[w] >> (at % 64);
        if left != 0 {
            return at + left.trailing_zeros() as usize;
        }
        at = 64 * (w + 1);
    }
    256
}
