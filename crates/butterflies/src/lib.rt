// The stages of a number-theoretic transform to base 4, each of 64 butterflies.
#![tactic(auto)]

pub mod stage;
