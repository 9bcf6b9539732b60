// The tree in the node words of a pool: asking it, along one path from the root. Its root comes in by value; where that
// is kept is not known here.
#![tactic(auto)]

mod query;
mod root;
mod steps;

pub use root::{Held, Root};
pub use steps::Step;
