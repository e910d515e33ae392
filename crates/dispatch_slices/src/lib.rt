// Locating in slices by one of eight jobs: start and peek. The step has a crate of its own.
#![tactic(auto)]

pub mod peek;
pub mod start;
