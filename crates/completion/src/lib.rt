// Mending a frame, or a row, at a set of columns, over the field of 257.
#![tactic(auto)]

pub mod cell;
pub mod mend;
pub mod row;
