// Linear equations modulo a prime p, solved by elimination without division. An equation is a row of values in a table: value 0 is the
// constant, value k the coefficient of unknown k. Row k leads with unknown k, or its value k is 0 and it counts as empty. Row 0 is
// the equation that is being added.
#![tactic(auto)]

ghost use Rattle.std.specs.Prelude.{◌≡◌, get_or, replicate};
ghost use Rattle.elimination.specs.Equations.{Cancelled, Cleared, CrossedAt, Decided, LeadsRow, Stored, place_of, value_at};
ghost use Rattle.plain.specs.Plain.{Each, Tells};
ghost use Rattle.elimination.specs.declared.Added.TheVariants.{Follows, Contradicts};

use plain::values::{cross, get, put};

// How many values a row has room for. The table has as many rows.
const SPAN: usize = 129;

// What an added equation does: it follows from those before it, or it leads with a new unknown, or no solution is left.
#[derive(Clone, Copy)]
pub enum Added {
    Follows,
    Leads,
    Contradicts,
}

pub fn follows(added: Added) -> bool
    ensures { Tells result (added ≡ Follows) }
{
    matches!(added, Added::Follows)
}

pub fn contradicts(added: Added) -> bool
    ensures { Tells result (added ≡ Contradicts) }
{
    matches!(added, Added::Contradicts)
}

pub fn table() -> [u16; 16641]
    ensures { result ≡ replicate 16641 0 }
{
    [0; 16641]
}

// Where value j of row k stands.
fn place(k: usize, j: usize) -> usize
    ensures { result ≡ place_of k j }
{
    if k < SPAN && j < SPAN {
        return k * SPAN + j;
    }
    SPAN * SPAN
}

fn value(table: &[u16], k: usize, j: usize) -> u16
    ensures { result ≡ value_at table.now k j }
{
    get(table, place(k, j))
}

// Empties the table for rows of n values.
pub fn clear(table: &mut [u16], n: usize)
    ensures { Cleared table.old table.new n }
{
    for k in 1..n {
        put(table, place(k, k), 0);
    }
}

// Takes the multiple of row k by which unknown k falls out from value j of the equation that is being added.
fn cancel_value(p: u16, table: &mut [u16], k: usize, j: usize, x: u16)
    ensures { CrossedAt p table.old table.new k j x }
{
    let lead = value(table, k, k);
    let v = cross(p, get(table, j), lead, value(table, k, j), x);
    put(table, j, v);
}

// Takes unknown k out of the equation that is being added, by row k.
fn cancel(p: u16, table: &mut [u16], k: usize, n: usize)
    ensures { Cancelled p table.old table.new k n }
{
    let x = get(table, k);
    if x == 0 {
        return;
    }
    for j in 0..n {
        cancel_value(p, table, k, j, x);
    }
}

// The equation that is being added becomes row k.
fn keep(table: &mut [u16], k: usize, n: usize)
    ensures { Stored table.old table.new k n }
{
    for j in 0..n {
        let v = get(table, j);
        put(table, place(k, j), v);
    }
}

// The equation that is being added has unknown k, and no row leads with it.
fn is_new(table: &[u16], k: usize) -> bool
    ensures { Tells result ((get_or table.now k 0 ≡ 0 → ⊥) × (value_at table.now k k ≡ 0)) }
{
    get(table, k) != 0 && value(table, k, k) == 0
}

// Adds the equation of row 0, which has n values.
pub fn add(p: u16, table: &mut [u16], n: usize) -> Added
    ensures { Decided p n result table.old table.new }
{
    for k in 1..n {
        if is_new(table, k) {
            keep(table, k, n);
            return Added::Leads;
        }
        cancel(p, table, k, n);
    }
    if get(table, 0) != 0 {
        return Added::Contradicts;
    }
    Added::Follows
}

// Every unknown leads a row: there is at most one solution.
pub fn determined(table: &[u16], n: usize) -> bool
    ensures { Tells result (Each 1 n (λ k. LeadsRow table.now k)) }
{
    // Kept as a loop: the proof search gives up on `all` over the range.
    for k in 1..n {
        if value(table, k, k) == 0 {
            return false;
        }
    }
    true
}
