// The encoder: the check cells of each row are filled by division.
#![tactic(auto)]

pub mod encode;
