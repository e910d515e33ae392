// Declared cells: which can be declared, the frame as it is read, and a frame filled at its marked and declared columns.
#![tactic(auto)]

pub mod cells;
pub mod fill;
pub mod reading;
