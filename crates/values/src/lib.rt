// The marks of a tree in the node words of a pool, written out as words. Its root comes in by value; where it is
// kept is not known here.
#![tactic(auto)]

mod writing;

pub use writing::{values, words_for};
