// The bytes read from standard input and not yet used, and the lines that are due for them.
#![tactic(auto)]

pub mod input;
pub mod output;
