// What is worked out of the modulus once, and discrepancies on arrays. These are a little longer than a register, with zeros after it: loops go on to a multiple
// of 8 entries, and none is left for the compiler to do one by one.
#![tactic(auto)]

pub mod due;
pub mod padded;
pub mod sums;
pub mod worked_out;

// A modulus p with what is worked out of it once: its reciprocals, in parts of 2^40, and in parts of 2^48 rounded up; 2^16 modulo p; and the inverse of
// an odd p modulo 2^16.
#[derive(Clone, Copy)]
pub struct Modulus {
    pub p: u32,
    pub wide: u64,
    pub reciprocal: u64,
    pub unit: u32,
    pub inverse: u16,
}
