// Jobs with lost cells for the trials: how declared cells are drawn and spoiled, what they leave of the check sums, a simple model of a job, and the calls of
// the library held to it.
#![tactic(auto)]

pub mod against;
pub mod cells;
pub mod edges;
pub mod left;
pub mod lent;
pub mod many_calls;
pub mod model;
pub mod named;
pub mod near;
pub mod tallies;
