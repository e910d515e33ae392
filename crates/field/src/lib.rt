// Residues modulo a prime p up to 65521: which p are taken, and the field's operations.
#![tactic(auto)]

pub mod montgomery;
pub mod narrow;
pub mod prime;
pub mod reciprocal;
pub mod residue;
