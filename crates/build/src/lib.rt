// The tree in the node words of a pool: building it from words. Its root and its length are handed over by value; where
// they are kept is not known here.
#![tactic(auto)]

mod building;

pub use building::{build, leaf_count};
