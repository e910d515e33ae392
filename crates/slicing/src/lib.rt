// The calls that locate in slices: start, step and peek (SPECIFICATION.md, "Slices").
#![tactic(auto)]

pub mod next;
pub mod peek;
pub mod start;
mod unfinished;
