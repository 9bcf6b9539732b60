// A leaf of two words with its edits, words of 32 and of 64 bits as one, and one of two numbers. Bits count from the
// lowest, and a word is the list of its bits.
#![tactic(auto)]

mod choice;
mod leaf;
mod word;

pub use choice::either;
pub use leaf::Leaf;
pub use word::Word;

// The bits of a word, and of the two words of a leaf.
pub const WORD_BITS: u64 = 64;

pub const BLOCK_BITS: u64 = 128;

// The place of a word's highest bit.
pub const TOP_BIT: u64 = 63;
