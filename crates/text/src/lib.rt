// Answers as text: numbers, columns, and the lines of what the functions answer (SPECIFICATION.md, "Records and lines").
#![tactic(auto)]

pub mod answers;
mod writers;
