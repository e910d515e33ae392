// Eight jobs, each part of them in an array of eight: their heads read and written in numbers, and whose turn it is (SPECIFICATION.md, "Eight jobs").
#![tactic(auto)]

pub mod heads;
pub mod order;
