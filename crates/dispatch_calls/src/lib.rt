// The calls on one of eight jobs that do all at once: shape, encode, locate and repair; and eight empty jobs.
#![tactic(auto)]

pub mod empty;
pub mod encode;
pub mod locate;
pub mod repair;
pub mod shape;
