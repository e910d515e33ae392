// The field of 257: powers of 3, inverses, products without division.
#![tactic(auto)]

pub mod inverses;
pub mod light;
pub mod montgomery;
pub mod powers;
