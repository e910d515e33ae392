// The shortest register of sequences from Problem 2 itself: for l = 0, 1, .. the conditions on the taps are linear equations, and
// elimination tells whether they have a solution and whether it is the only one.
ghost use Rattle.brute.specs.Registers.{Generates, GeneratesOne, Searched, SequenceAdded, Solvable};
ghost use Rattle.plain.specs.Plain.{Tells, before};
ghost use Rattle.plain.specs.Written.{Wrote};

use elimination::{add, clear, contradicts, determined};
use plain::sequences::{discrepancy, sequence};
use plain::values::{before, put};

// The length is 129 where no register was found; the definitions of `specs/` say so, and no sequence here needs it.
#[derive(Clone, Copy, PartialEq)]
pub struct Answer {
    pub length: usize,
    pub alone: bool,
}

// The equation of the symbol at place j: it and the symbols before it, times the taps, add up to 0.
fn pose(table: &mut [u16], s: &[u16], j: usize, n: usize)
    ensures { Wrote table.old table.new 0 n (before s.now j) }
{
    for k in 0..n {
        put(table, k, before(s, j, k));
    }
}

// The conditions of one sequence; false where no taps meet them. With l from its length on there is nothing to meet.
fn add_sequence(p: u16, table: &mut [u16], s: &[u16], l: usize) -> bool
    ensures { SequenceAdded p l s.now table.old table.new result }
{
    if s.len() <= l {
        return true;
    }
    for j in l..s.len() {
        pose(table, s, j, l + 1);
        if contradicts(add(p, table, l + 1)) {
            return false;
        }
    }
    true
}

// Some register of length l generates all sequences. Its conditions are left in the table.
fn solvable(p: u16, lengths: &[u16], symbols: &[u16], l: usize, table: &mut [u16]) -> bool
    ensures { Solvable p l lengths.now symbols.now table.old table.new result }
{
    clear(table, l.wrapping_add(1));
    for h in 0..lengths.len() {
        if !add_sequence(p, table, sequence(lengths, symbols, h), l) {
            return false;
        }
    }
    true
}

// The length is at most 128, or 129 where no register was found.
pub fn shortest(p: u16, lengths: &[u16], symbols: &[u16], table: &mut [u16]) -> Answer
    ensures { Searched p lengths.now symbols.now table.old table.new result.length result.alone }
{
    for l in 0..129 {
        if solvable(p, lengths, symbols, l, table) {
            let alone = determined(table, l + 1);
            return Answer { length: l, alone };
        }
    }
    Answer {
        length: 129,
        alone: false,
    }
}

fn generates_one(p: u16, s: &[u16], taps: &[u16], l: usize) -> bool
    ensures { Tells result (GeneratesOne p l s.now taps.now) }
{
    if s.len() <= l {
        return true;
    }
    for j in l..s.len() {
        if discrepancy(p, s, taps, l + 1, j) != 0 {
            return false;
        }
    }
    true
}

// The register with these l + 1 taps, the first for the symbol itself, generates all sequences.
pub fn generates(p: u16, lengths: &[u16], symbols: &[u16], taps: &[u16], l: usize) -> bool
    ensures { Tells result (Generates p l lengths.now symbols.now taps.now) }
{
    for h in 0..lengths.len() {
        if !generates_one(p, sequence(lengths, symbols, h), taps, l) {
            return false;
        }
    }
    true
}
