// Division of a row by the generator polynomial of its checks, whose remainder fills the check cells.
#![tactic(auto)]

pub mod generator;
pub mod rows;
