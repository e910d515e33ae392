// Rows with columns that are lost: what is left of their check sums where these are taken out, one after the other, and whether some symbols for them make
// all check sums 0.
ghost use Rattle.std.specs.Prelude.{◌≡◌, ◌+◌, ◌-◌, ◌≤◌, length, slice_index};
ghost use Rattle.brute.specs.Erasures.{Completable, sum_equation, without, without_column};
ghost use Rattle.brute.specs.Registers.{Residues};
ghost use Rattle.plain.specs.Plain.{Each, Tells};
ghost use Rattle.plain.specs.Written.{Wrote};

use elimination::{add, clear, contradicts, table};
use plain::values::{get, plus_product, put, times};
use plain_frames::frames::power;

// Takes column i out of n + 1 check sums, and leaves n: the next one, less 3^i times the one before it, has nothing of the column's symbol.
fn take_out(sums: &mut [u16], n: usize, i: u16)
    ensures { Wrote sums.old sums.new 0 n (without_column i (λ k. slice_index sums.old k)) }
{
    let weight = times(257, 256, power(3, usize::from(i)));
    for j in 0..n {
        let v = plus_product(257, get(sums, j + 1), weight, get(sums, j));
        put(sums, j, v);
    }
}

// Takes the listed columns out of n check sums.
pub fn take_out_all(sums: &mut [u16], n: usize, list: &[u16])
    ensures { n ≤ length sums.old → Each 0 (n - length list.now)
        (λ j. slice_index sums.new j ≡ without list.now (length list.now) (λ k. slice_index sums.old k) j) }
{
    for (k, i) in list.iter().enumerate() {
        take_out(sums, n.saturating_sub(k + 1), *i);
    }
}

// The equation of a check sum in which column i has the weight step^i: it and the symbols of the listed columns, times their weights, add up to 0.
fn pose_sum(table: &mut [u16], list: &[u16], sum: u16, step: u16)
    ensures { Wrote table.old table.new 0 (length list.now + 1) (sum_equation list.now sum step) }
{
    put(table, 0, sum);
    for (k, i) in list.iter().enumerate() {
        put(table, k + 1, power(step, usize::from(*i)));
    }
}

// Some symbols, added in the listed columns, make all check sums 0, which begin at this exponent. Room is for 128 columns.
pub fn completable(exponent: u32, list: &[u16], sums: &[u16]) -> bool
    ensures { length list.now ≤ 128 → Residues 257 sums.now → Tells result (Completable exponent list.now sums.now) }
{
    let mut room = table();
    let equations: &mut [u16] = &mut room;
    let n = list.len().wrapping_add(1);
    clear(equations, n);
    let mut step = power(3, exponent as usize);
    for sum in sums {
        pose_sum(equations, list, *sum, step);
        if contradicts(add(257, equations, n)) {
            return false;
        }
        step = times(257, step, 3);
    }
    true
}
