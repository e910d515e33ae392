// The taps of a register less a multiple of saved ones, on arrays. These have zeros after each register, so that loops go on to a multiple of 8 entries.
#![tactic(auto)]

pub mod reduce;
pub mod taking;
