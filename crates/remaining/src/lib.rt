// What is left of check sums when the columns of a set are taken out of them, over the field of 257.
#![tactic(auto)]

pub mod completable;
pub mod row;
pub mod rows;
