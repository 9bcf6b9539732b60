// Putting a mark into a tree: down to a leaf, which splits where it is full, and balanced again on the way back.
#![tactic(auto)]

mod inserting;

pub use inserting::{insert, room};
