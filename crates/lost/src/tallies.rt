// What is counted: refusals by their numbers, calls that are taken by their kind; edges and lists; frames with damage in reach and past it; repairs that are
// refused by 26.
use plain::tally::count;
use std::io;

#[derive(Clone, Copy)]
pub struct Tallies {
    pub refused: [u64; 35],
    pub shaped: u64,
    pub encoded: u64,
    pub found: u64,
    pub mended: u64,
    pub dead: u64,
    pub edges: u64,
    pub lists: u64,
    pub in_reach: u64,
    pub past_reach: u64,
}

pub fn none() -> Tallies {
    Tallies {
        refused: [0; 35],
        shaped: 0,
        encoded: 0,
        found: 0,
        mended: 0,
        dead: 0,
        edges: 0,
        lists: 0,
        in_reach: 0,
        past_reach: 0,
    }
}

impl Tallies {
    pub fn refuse(&mut self, number: u32) {
        if let Some(n) = self.refused.get_mut(number as usize) {
            count(n, true);
        }
    }

    // How often each of these refusals occurred.
    pub fn print_refusals(&self, rt: &impl Print, numbers: &[usize]) -> io::Result<()> {
        for number in numbers {
            let n = self.refused.get(*number).copied().unwrap_or(0);
            print!(rt; "\nrefused by {number}: {n}")?;
        }
        Ok(())
    }
}
