// The head of a job: the forms in which calls leave it, and which values are sound (SPECIFICATION.md, "Jobs").
#![tactic(auto)]

pub mod sound;
pub mod states;
