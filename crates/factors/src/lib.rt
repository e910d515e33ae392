// The table of factors by which columns are multiplied before each stage of a transform.
#![tactic(auto)]

pub mod table;
