// The parts of a plan.

// The first line: the cells of the store, the workers, and the rank that the queue starts at.
#[derive(Clone, Copy, PartialEq, Eq, Debug)]
pub struct Header {
    pub cells: u64,
    pub workers: u64,
    pub start: u64,
}

// So many turns of one party: 0 is the receiver, k is worker k - 1.
#[derive(Clone, Copy, PartialEq, Eq, Debug)]
pub struct Stretch {
    pub party: u64,
    pub count: u64,
}
