// Locating in slices: the search for a register that is begun from check sums, one step of it, and what it comes to (SPECIFICATION.md, "Jobs").
#![tactic(auto)]

pub mod arrive;
pub mod begin;
pub mod sound;
pub mod turn;
