// The limits of a pool and of the tree in it, each said once for all code. The model has the same numbers
// (model/specs/Limits.antt), and what is proved holds the two together.

// The words of a node, and of the trailer.
pub const NODE_WORDS: u64 = 6;

pub const MOST_NODES: u64 = 1023;

// No leaf of a tree of so many nodes is more than this many forks down.
pub const LEVELS: u64 = 12;

// A leaf of several that is not the rightmost holds at least this many marks. A neighbour that holds no more is joined.
pub const LEAF_LEAST: u64 = 33;

// A split takes two nodes, and a merge frees two.
pub const SPLIT_NODES: u64 = 2;
