// The search for the columns that a register names, which goes up from column 0 and ends as soon as they are found (SPECIFICATION.md, "Search").
#![tactic(auto)]

mod blocks;
pub mod roots;
mod values;

use columns::Columns;

// The columns found, and how many columns were tried.
#[derive(Clone, Copy)]
pub struct Sought {
    pub columns: Columns,
    pub tried: usize,
}
