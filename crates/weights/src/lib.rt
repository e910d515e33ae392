// The coefficients with which the symbol at a column of a set is read off the check sums, shared by all rows.
#![tactic(auto)]

pub mod read;

ghost use Rattle.std.specs.Prelude.{◌≡◌, ℕ, suc, ◌≤◌, ◌<◌, length, get_or};
ghost use Rattle.weights.specs.Weighable.{Weighable};
ghost use Rattle.weights.specs.Weights.{carried, factor_of, read_off};
ghost use Rattle.field.specs.Residue.{times};
ghost use Rattle.field257.specs.Powers.{locator_of};
ghost use Rattle.lists.specs.Tabulate.{tabulate};

use field::residue::{difference, product};
use field257::inverses::inverse;
use field257::powers::entry;
use polynomials::values::value_at;

// The quotient of f by 1 - x z, by synthetic division, as many coefficients as there are places for.
fn divide(f: &[u16; 65], x: u32, quotient: &mut [u16])
    requires { (x < 257) × (length quotient.old ≤ 64) }
    ensures { quotient.new ≡ tabulate (length quotient.old) (λ k. carried f.now x (suc k)) }
{
    let mut carry = 0;
    for (k, coefficient) in quotient.iter_mut().enumerate() {
        carry = (u32::from(f[k]) + x * carry) % 257;
        *coefficient = carry as u16;
    }
}

// Each entry times c.
fn scale(row: &mut [u16], c: u32)
    requires { c < 257 }
    ensures { row.new ≡ tabulate (length row.old) (λ k. times 257 (get_or row.old k 0) c) }
{
    for entry in row.iter_mut() {
        *entry = (u32::from(*entry) * c % 257) as u16;
    }
}

// What the coefficients of column i are multiples of, for the locator polynomial of the other columns of its set.
fn factor(powers: &[u16; 256], b: u32, others: &[u16], i: usize) -> u32
    requires { Weighable powers.now b i others.now × ((k : ℕ) → get_or others.now k 0 < 257) }
    ensures equals { result ≡ factor_of b (length others.now) i others.now }
    ensures below { result < 257 }
{
    let there = value_at(powers, others, (256 - i) as u32);
    let weight = entry(powers, (i as u32) * (b + others.len() as u32 - 1));
    let part = product(u32::from(weight), u32::from(there), 257);
    difference(0, inverse(part), 257)
}

// The coefficients of column i of a set with the locator polynomial f, as many as the set has columns.
pub fn weigh(powers: &[u16; 256], b: u32, f: &[u16; 65], i: usize, row: &mut [u16])
    requires { Weighable powers.now b i row.old }
    ensures { row.new ≡ tabulate (length row.old)
        (read_off b (length row.old) i (tabulate (length row.old) (λ k. carried f.now (locator_of i) (suc k)))) }
{
    divide(f, u32::from(entry(powers, i as u32)), row);
    let c = factor(powers, b, row, i);
    scale(row, c);
}
