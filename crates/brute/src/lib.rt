// Second implementations that share no code with the library, each by elimination: the shortest register, the locator, declared cells. Their contracts are
// plain arithmetic over the numbers and lists that are lent, and cite no definition of the library's.
#![tactic(auto)]

pub mod erasures;
pub mod locator;
pub mod shortest;
