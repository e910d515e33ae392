// The shortest register of up to eight sequences (SPECIFICATION.md, "Registers").
#![tactic(auto)]

pub mod find;

// The shortest register: its length, and whether it is alone.
#[derive(Clone, Copy)]
pub struct Register {
    pub length: usize,
    pub alone: bool,
}
