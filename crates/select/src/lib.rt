// A word's k-th bit, at 32, 64 and 128 bits. Bits count from the lowest, and a word is the list of its bits.
#![tactic(auto)]

mod select;

pub use select::{select_word, select128};
