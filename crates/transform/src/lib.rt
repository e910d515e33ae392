// Values of a row at the powers of 3, by a number-theoretic transform.
#![tactic(auto)]

pub mod stages;
