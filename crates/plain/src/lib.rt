// What the trials share beside elimination and frames: plain arithmetic on lent arrays, sequences, random numbers, reasons to refuse, counts and lines of
// them. Contracts are plain
// arithmetic over the numbers and lists that are lent, and cite no definition of the library's.
#![tactic(auto)]

pub mod counting;
pub mod random;
pub mod refused;
pub mod sequences;
pub mod tally;
pub mod values;
