// One order on a tree among node words, wherever its root is kept: the tree is asked or edited, and what is known of it
// is handed back. No trailer and no rule of room is known here.
#![tactic(auto)]

mod serving;

pub use serving::{Served, serve};
