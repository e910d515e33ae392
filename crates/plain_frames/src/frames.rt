// Frames over the field of 257 from their definitions. Check sums take the powers of 3 by repeated multiplication.
ghost use Rattle.std.specs.Prelude.{◌≡◌, suc, ◌+◌, ◌-◌, ◌%◌, ◌^◌, ◌<◌, length, get_or};
ghost use Rattle.plain_frames.specs.Frames.{Summed, check_sum, row};
ghost use Rattle.plain.specs.Plain.{Each, Tells, capped, sum};
ghost use Rattle.plain.specs.Written.{Wrote};

use plain::sequences::start;
use plain::values::{part, plus_product, product, put_at, times};

pub fn power(x: u16, e: usize) -> u16
    ensures { result ≡ x ^ e % 257 }
{
    let mut r: u16 = 1;
    for _ in 0..e {
        r = times(257, r, x);
    }
    r
}

// Row h of a frame, which has at most eight.
pub fn row(frame: &[u16], columns: u16, h: usize) -> &[u16]
    ensures { result.now ≡ row frame.now columns h }
{
    if h < 8 {
        return part(
            frame,
            product(h as u16, columns) as usize,
            usize::from(columns),
        );
    }
    &[]
}

// The check sum S_j of a row, j from 1 on.
fn check_sum(exponent: u32, row: &[u16], j: u16) -> u16
    ensures { result ≡ check_sum exponent row.now j }
{
    let step = power(3, (exponent as usize + usize::from(j)).saturating_sub(1));
    let mut weight: u16 = 1;
    let mut sum: u16 = 0;
    for x in row {
        sum = plus_product(257, sum, *x, weight);
        weight = times(257, weight, step);
    }
    sum
}

fn row_sums(exponent: u32, row: &[u16], n: u16, sums: &mut [u16], at: usize)
    ensures { Wrote sums.old sums.new at (at + n) (λ k. check_sum exponent row.now (suc (k - at))) }
{
    for j in 0..n {
        put_at(sums, at, usize::from(j), check_sum(exponent, row, j + 1));
    }
}

// The check sums of all rows, row after row.
pub fn check_sums(exponent: u32, columns: u16, checks: &[u16], frame: &[u16], sums: &mut [u16])
    ensures { Summed exponent columns checks.now frame.now (length checks.now) sums.old sums.new }
{
    for (h, n) in checks.iter().enumerate() {
        let at = start(checks, h);
        row_sums(exponent, row(frame, columns, h), *n, sums, at);
    }
}

fn all_zero(a: &[u16]) -> bool
    ensures { Tells result (Each 0 (length a.now) (λ i. get_or a.now i 0 ≡ 0)) }
{
    a.iter().all(|x| *x == 0)
}

// Every check sum of the frame is 0. There is room for 512 of them.
pub fn codeword(exponent: u32, columns: u16, checks: &[u16], frame: &[u16]) -> bool
    ensures { Tells result (Each 0 (length checks.now) (λ h. Each 0 (get_or checks.now h 0) (λ j.
        sum h (λ i. get_or checks.now i 0) + j < 512 → check_sum exponent (row frame.now columns h) (suc j) ≡ 0))) }
{
    let mut sums = [0u16; 512];
    check_sums(exponent, columns, checks, frame, &mut sums);
    all_zero(&sums)
}

// How many marks are set.
pub fn size(marks: &[u16]) -> usize
    ensures { result ≡ capped (sum (length marks.now) (λ i. get_or marks.now i 0)) }
{
    let mut n: usize = 0;
    for x in marks {
        n = n.saturating_add(usize::from(*x));
    }
    n
}
