// Whether a register generates all symbols that the rounds have not come to: the rounds that are left would change nothing then. Their discrepancies are
// tested together, many symbols in a turn of a loop, where a round sums one after the other.
#![tactic(auto)]

mod ahead;
pub mod test;
