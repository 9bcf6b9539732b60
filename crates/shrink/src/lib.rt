// Taking a mark out of a tree: down to a leaf, and on the way back a child with too few marks is joined to the
// neighbouring leaf or borrows from it, and the fork is balanced again.
#![tactic(auto)]

mod mending;
mod removing;

pub use removing::{Removed, remove};
