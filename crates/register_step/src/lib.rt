// One step of Algorithm 4 on arrays: the change of the register by the discrepancy that is due. The state is kept in lent arrays and changed in place.
#![tactic(auto)]

mod changing;
pub mod single;
pub mod step;

use discrepancy::Modulus;

// What all steps read: the modulus, and an array of it; the length of the longest sequence; and the first `count` sequences, each backwards in its block of the
// symbols. It goes by value: behind a reference its fields would be read anew at each step.
#[derive(Clone, Copy)]
pub struct Problem<'a> {
    pub f: Modulus,
    pub moduli: &'a [u16; 144],
    pub longest: usize,
    pub symbols: &'a [u16; 1152],
    pub lengths: &'a [u16; 8],
    pub count: usize,
}

// What is kept of the state of Algorithm 4 between steps (specs/Parts.antt).
#[derive(Drop)]
pub struct State {
    pub length: usize,
    pub places: [u16; 8],
    pub sizes: [u16; 8],
    pub discs: [u16; 8],
    pub quotients: [u16; 8],
    pub taps: [u16; 144],
    pub saved: [u16; 1152],
}
