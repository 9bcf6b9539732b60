// Orders on a window, one after the other: each is served between reading the trailer and writing it again, and its
// answer is written in two words.
#![tactic(auto)]

mod running;
mod serving;

pub use running::run;
