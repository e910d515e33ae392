// Check sums of frames.
#![tactic(auto)]

pub mod sums;
