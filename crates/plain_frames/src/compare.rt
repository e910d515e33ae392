// Comparing frames and sets of columns.
ghost use Rattle.std.specs.Prelude.{◌≡◌, ◌↔◌, ℕ, ◌<◌, length, get_or};
ghost use Rattle.plain_frames.specs.Frames.{row, marked};
ghost use Rattle.plain.specs.Plain.{Each, Tells};

use crate::frames::row;
use columns::Columns;
use plain::values::get;

// Two lists are the same from place `from` on, up to the end of the first.
pub fn same(a: &[u16], b: &[u16], from: usize) -> bool
    ensures { Tells result (Each from (length a.now) (λ i. get_or a.now i 0 ≡ get_or b.now i 0)) }
{
    // Kept as an index: places past the end of b read as 0.
    for i in from..a.len() {
        if get(a, i) != get(b, i) {
            return false;
        }
    }
    true
}

// The data cells of two frames are the same.
pub fn same_data(columns: u16, checks: &[u16], a: &[u16], b: &[u16]) -> bool
    ensures { Tells result (Each 0 (length checks.now) (λ h. Each (get_or checks.now h 0) (length (row a.now columns h))
        (λ i. get_or (row a.now columns h) i 0 ≡ get_or (row b.now columns h) i 0))) }
{
    for (h, from) in checks.iter().enumerate() {
        if !same(row(a, columns, h), row(b, columns, h), usize::from(*from)) {
            return false;
        }
    }
    true
}

// The set has just the columns whose marks are 1.
pub fn same_columns(set: Columns, marks: &[u16]) -> bool
    ensures { Tells result (Each 0 256 (λ i. (marked set.words i ≡ 1) ↔ (get_or marks.now i 0 ≡ 1))) }
{
    for i in 0..256 {
        if columns::contains(set, i) != (get(marks, i) == 1) {
            return false;
        }
    }
    true
}

fn differs(columns: u16, rows: usize, a: &[u16], b: &[u16], i: usize) -> bool
    ensures { Tells result ((h : ℕ) × (h < rows) × (get_or (row a.now columns h) i 0 ≡ get_or (row b.now columns h) i 0 → ⊥)) }
{
    for h in 0..rows {
        if get(row(a, columns, h), i) != get(row(b, columns, h), i) {
            return true;
        }
    }
    false
}

// Two frames differ in just the columns whose marks are 1.
pub fn differ_in(columns: u16, rows: usize, a: &[u16], b: &[u16], marks: &[u16]) -> bool
    ensures { Tells result (Each 0 columns (λ i. (get_or marks.now i 0 ≡ 1)
        ↔ ((h : ℕ) × (h < rows) × (get_or (row a.now columns h) i 0 ≡ get_or (row b.now columns h) i 0 → ⊥)))) }
{
    for i in 0..usize::from(columns) {
        if differs(columns, rows, a, b, i) != (get(marks, i) == 1) {
            return false;
        }
    }
    true
}
