// The left and the right edge of a tree in a pool's node words: the size of the first and of the last leaf, marks put
// before the first mark or after the last, and the first or the last mark taken off. No leaf is split or joined here,
// and no height changes.
#![tactic(auto)]

mod edges;

pub use edges::{drop_first, drop_last, first_leaf_size, last_leaf_size, put_after, put_before};
