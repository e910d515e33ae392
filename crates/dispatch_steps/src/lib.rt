// A step of one of eight jobs that locates in slices.
#![tactic(auto)]

pub mod step;
