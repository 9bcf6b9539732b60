// The chain of free nodes: each holds the number of the next, and the last holds the number of nodes.

// The first free number and how many there are.
#[derive(Clone, Copy, Debug, PartialEq, Eq, Hash)]
pub struct Chain {
    pub first: u64,
    pub count: u64,
}
