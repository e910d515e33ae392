// The line that the program writes for a record (SPECIFICATION.md, "Records and lines").
#![tactic(auto)]

pub mod line;
pub mod parse;
