// The search for a register in slices: one step of Algorithm 4 at a time, modulo 257. What is kept between steps stands in lent arrays.
#![tactic(auto)]

pub mod advance;
pub mod begin;
pub mod sound;
