// A tree among the node words of a pool.
use pool::Chain;

// The number of its top, and how many marks it holds.
#[derive(Clone, Copy, Debug, PartialEq, Eq, Hash)]
pub struct Root {
    pub node: u64,
    pub length: u64,
}

// A tree among node words, and the free chain beside it.
#[derive(Clone, Copy, Debug, PartialEq, Eq, Hash)]
pub struct Held {
    pub tree: Root,
    pub chain: Chain,
}
