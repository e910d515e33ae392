// The symbols at all columns of a set read off the check sums of one row. The coefficients of a column are a chain, each worked out from the one before
// (crate weights); here each column has a lane, and the lanes go side by side, so that several steps are made at once.
#![tactic(auto)]

mod run;
mod step;
pub mod symbols;
