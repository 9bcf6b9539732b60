// Operators' scripts, played line by line on one pool.
#![tactic(auto)]

mod playing;
mod telling;

pub use playing::{Next, play};
