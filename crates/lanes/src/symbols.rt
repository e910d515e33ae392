// The symbols at the columns of a set.
ghost use Rattle.std.specs.Prelude.{◌≡◌, ℕ, ◌≤◌, length, get_or};
ghost use Rattle.columns.specs.Columns.{members};
ghost use Rattle.field257.specs.Table.{table};
ghost use Rattle.lanes.specs.Symbols.{Listable, ReadableSet, locators_to, symbol_of, symbols_in, symbols_of};

use crate::run::{Lanes, run};
use columns::{Columns, size};
use field::narrow::product;
use field::residue::difference;
use field257::inverses::inverse;
use field257::montgomery::companions;
use field257::powers::entry;
use polynomials::locator::locator_polynomial;

// The columns of the set, rising, and zeros after them.
fn listed(set: Columns) -> [u16; 64]
    requires { length (members set) ≤ 64 }
    ensures { (k : ℕ) → get_or result k 0 ≡ get_or (members set) k 0 }
{
    let mut list = [0u16; 64];
    for (k, i) in set.members().enumerate() {
        list[k] = i as u16;
    }
    list
}

// The locators of the first m columns of the list to the power e, and zeros after them.
fn locators_to(powers: &[u16; 256], m: usize, list: &[u16; 64], e: u32) -> [u16; 64]
    requires { Listable powers.now m e }
    ensures { (k : ℕ) → get_or result k 0 ≡ get_or (locators_to m list.now e) k 0 }
{
    let mut x = [0u16; 64];
    for k in 0..m {
        x[k] = entry(powers, u32::from(list[k]) * e);
    }
    x
}

// The symbol at a column with this weight in the first check sum: what its lane read off is the symbol times the weight and the value, with the other sign.
fn symbol(weight: u16, value: u16, total: u32) -> u16
    ensures { result ≡ symbol_of weight value total }
{
    let factor = difference(0, inverse(product(weight, value) % 257), 257);
    ((total % 257) * factor % 257) as u16
}

// The symbols of the lanes of m columns with these weights, and zeros after them.
fn divided(m: usize, weights: &[u16; 64], lanes: Lanes) -> [u16; 64]
    requires { m ≤ 64 }
    ensures { (k : ℕ) → get_or result k 0 ≡ get_or (symbols_in m weights.now lanes) k 0 }
{
    let mut symbols = [0u16; 64];
    for k in 0..m {
        symbols[k] = symbol(weights[k], lanes.values[k], lanes.totals[k]);
    }
    symbols
}

// The symbols of the columns of the set, rising, and zeros after them. The sums begin at the exponent b.
pub fn symbols(powers: &[u16; 256], b: u32, set: Columns, sums: &[u16]) -> [u16; 64]
    requires { (powers.now ≡ table) × ReadableSet b set sums.now }
    ensures { (k : ℕ) → get_or result k 0 ≡ get_or (symbols_of b set sums.now) k 0 }
{
    let m = size(set);
    let f = locator_polynomial(powers, set);
    let list = listed(set);
    let x = locators_to(powers, m, &list, 1);
    let weights = locators_to(powers, m, &list, b);
    let z = companions(&x);
    let lanes = run(m, &f, sums, &x, &z);
    divided(m, &weights, lanes)
}
