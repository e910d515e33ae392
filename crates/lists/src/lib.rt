// Mathematics of lists alone, and what a proof about arrays asks of the code.
#![tactic(auto)]

pub mod arrays;
pub mod lend;
