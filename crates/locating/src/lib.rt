// Locating from check sums: the shortest register of what is left of them, and the columns that it names (SPECIFICATION.md, "Jobs" and "Declared cells").
#![tactic(auto)]

pub mod finding;
pub mod from_sums;
