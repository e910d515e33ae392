// Whether a frame will be uniform once it is encoded or mended, told without completing it.
#![tactic(auto)]

pub mod constant;
pub mod encoded;
pub mod holds;
pub mod mended;
