// What is counted: edges; answers of the finder; registers that are longer if the sequences are aligned at their starts.
#[derive(Clone, Copy)]
pub(crate) struct Tallies {
    pub(crate) edges: u64,
    pub(crate) alone: u64,
    pub(crate) not_alone: u64,
    pub(crate) refused: u64,
    pub(crate) longer: u64,
}

pub(crate) fn none() -> Tallies {
    Tallies {
        edges: 0,
        alone: 0,
        not_alone: 0,
        refused: 0,
        longer: 0,
    }
}
