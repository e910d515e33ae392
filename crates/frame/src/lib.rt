// Frames of Reed–Solomon codewords over the field of 257 (SPECIFICATION.md, "Frames").
#![tactic(auto)]

// Rows, columns, and for each row its number of checks; the places of the rows that the shape does not have hold 0. The exponent is that of the locators in
// the first check sum, b in the specification.
#[derive(Clone, Copy)]
pub struct Shape {
    pub rows: usize,
    pub columns: usize,
    pub checks: [u16; 8],
    pub exponent: u32,
}
