// Which shapes there are, and which cells of a frame hold symbols.
#![tactic(auto)]

pub mod shape;
pub mod symbols;
