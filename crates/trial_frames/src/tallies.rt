// What is counted: answers of locate, and of these the dead lines; data that encode refuses; frames by how many columns are damaged, against half of the
// least number of checks.
use plain::tally::count;

#[derive(Clone, Copy)]
pub(crate) struct Tallies {
    pub(crate) located: u64,
    pub(crate) refused_24: u64,
    pub(crate) refused_25: u64,
    pub(crate) refused_26: u64,
    pub(crate) refused_34: u64,
    pub(crate) dead: u64,
    pub(crate) below_half: u64,
    pub(crate) at_half: u64,
    pub(crate) above_half: u64,
}

pub(crate) fn none() -> Tallies {
    Tallies {
        located: 0,
        refused_24: 0,
        refused_25: 0,
        refused_26: 0,
        refused_34: 0,
        dead: 0,
        below_half: 0,
        at_half: 0,
        above_half: 0,
    }
}

impl Tallies {
    // Counts what locate answered.
    pub(crate) fn locate(&mut self, refused: Option<u32>) {
        match refused {
            None => count(&mut self.located, true),
            Some(24) => count(&mut self.refused_24, true),
            Some(25) => count(&mut self.refused_25, true),
            Some(26) => count(&mut self.refused_26, true),
            Some(_) => {}
        }
    }

    // Counts a frame with w damaged columns.
    pub(crate) fn damaged(&mut self, w: u16, half: u16) {
        count(&mut self.below_half, w < half);
        count(&mut self.at_half, w == half);
        count(&mut self.above_half, w > half);
    }
}
