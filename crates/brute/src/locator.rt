// The second locator, which asks elimination: whether a column is named is whether its equation follows from those of the taps.
ghost use Rattle.std.specs.Prelude.{ℕ, ◌%◌, ◌^◌, ◌<◌, length, slice_index, IfSome};
ghost use Rattle.brute.specs.Locating.{Located, MarkedRoots, Named, number_in};
ghost use Rattle.plain.specs.Plain.{Tells};
ghost use Rattle.plain.specs.Written.{Wrote};

use crate::shortest::shortest;
use plain::values::{put, times};
use plain_frames::frames::{power, size};

// What locating must answer: the number of the refusal, if it refuses (SPECIFICATION.md, "Refusals"); and in any case the length of the shortest register.
#[derive(Clone, Copy, PartialEq)]
pub struct Expected {
    pub refused: Option<u32>,
    pub length: usize,
}

// Some row has fewer than c checks.
fn short_row(checks: &[u16], c: usize) -> bool
    ensures { Tells result ((h : ℕ) × (h < length checks.now) × (slice_index checks.now h < c)) }
{
    checks.iter().any(|n| usize::from(*n) < c)
}

// The equation that the register is 0 at y: the powers of y, times the taps, add up to 0.
fn pose_root(table: &mut [u16], y: u16, n: usize)
    ensures { Wrote table.old table.new 0 n (λ k. y ^ k % 257) }
{
    let mut v: u16 = 1;
    for k in 0..n {
        put(table, k, v);
        v = times(257, v, y);
    }
}

// The conditions of the one register, which stand in the table, make it 0 at the inverse of 3^i, which is the power 255 of it.
fn names(table: &mut [u16], i: u16, n: usize) -> bool
    ensures { Named n i table.old table.new result }
{
    let y = power(power(3, usize::from(i)), 255);
    pose_root(table, y, n);
    elimination::follows(elimination::add(257, table, n))
}

fn mark(table: &mut [u16], columns: u16, n: usize, named: &mut [u16])
    ensures { MarkedRoots n table.old named.old named.new columns }
{
    for i in 0..columns {
        let marked = names(table, i, n);
        put(named, usize::from(i), u16::from(marked));
    }
}

// What locating answers for these check sums; the marks of the named columns are left in the lent array.
pub fn locate(columns: u16, checks: &[u16], sums: &[u16], named: &mut [u16]) -> Expected
    ensures located { Located columns checks.now sums.now named.old named.new (number_in result.refused) result.length }
    ensures numbered { IfSome result.refused (λ n. 0 < n) }
{
    let mut table = elimination::table();
    let found = shortest(257, checks, sums, &mut table);
    let length = found.length;
    if !found.alone {
        return Expected {
            refused: Some(24),
            length,
        };
    }
    if short_row(checks, length) {
        return Expected {
            refused: Some(25),
            length,
        };
    }
    mark(&mut table, columns, length.wrapping_add(1), named);
    if size(named) != length {
        return Expected {
            refused: Some(26),
            length,
        };
    }
    Expected {
        refused: None,
        length,
    }
}
