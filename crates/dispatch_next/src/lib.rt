// A step of one of eight jobs as the call makes it. All but the last one are made faster (crate `dispatch_steps`).
#![tactic(auto)]

pub mod next;
