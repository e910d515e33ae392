// The dispatcher: turns that step the unfinished ones of eight jobs, one after the other (SPECIFICATION.md, "Eight jobs"). The jobs stand in arrays that are lent
// and written in place (crate `kept`); the calls on one of them are in the crates `dispatch_calls`, `dispatch_slices` and `dispatch_steps`.
#![tactic(auto)]

pub mod turn;
