// The calls on a job: shape, encode, locate and repair (SPECIFICATION.md, "Jobs"). Those that locate in slices are in the crate `slicing`.
#![tactic(auto)]

pub mod encode;
pub mod locate;
pub mod repair;
pub mod shape;
