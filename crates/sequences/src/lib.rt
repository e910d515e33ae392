// The sequences lent to the finder: the tests of what is lent, the order by falling length, and the sequences backwards in blocks.
#![tactic(auto)]

pub mod backwards;
pub mod check;
pub mod every;
pub mod sort;
pub mod zeros;

// Where the sequences stand among the lent symbols, by falling length: for each its first symbol and its length.
#[derive(Clone, Copy)]
pub struct Order {
    pub starts: [u16; 8],
    pub lengths: [u16; 8],
}
