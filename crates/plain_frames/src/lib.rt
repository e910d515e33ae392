// Frames for the trials: check sums, declared cells, damage, comparisons, and what the library answers, as numbers. Contracts are plain arithmetic over the
// numbers and lists that are lent, and cite no definition of the library's.
#![tactic(auto)]

pub mod answers;
pub mod cells;
pub mod compare;
pub mod damage;
pub mod frames;
pub mod uniform;
