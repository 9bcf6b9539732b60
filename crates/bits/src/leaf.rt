// A leaf of the tree: up to 128 marks in two words, the first mark the lowest bit of `low`, and zeros past the last
// mark. Each edit hands the new leaf back. Every method takes any leaf and any numbers: a place past bit 127 is where
// nothing is done.
ghost use Rattle.std.specs.Prelude.{true, [], ◌++◌, ◌∷◌, ◌≡◌, ◌%◌, ◌^◌, ◌<◌, take};
ghost use Rattle.model.specs.Marks.{access, insert as inserted, ones, rank, remove as removed};
ghost use Rattle.model.specs.Word.{bits};
ghost use Rattle.bits.specs.Leaf.{bits_of, halves_of, leaf_of, packed};

use crate::choice::either;
use crate::word::Word;
use crate::{BLOCK_BITS, TOP_BIT, WORD_BITS};

#[derive(Clone, Copy, Debug, PartialEq, Eq, Hash)]
pub struct Leaf {
    pub low: u64,
    pub high: u64,
}

impl Leaf {
    // The leaf of no marks.
    pub const EMPTY: Leaf = Leaf { low: 0, high: 0 };

    // The leaf with a mark put in at a place. The marks from there on move up by one; a bit 127 is lost. The word that
    // the place is in is chosen, here and in `remove`, without a jump.
    pub fn insert(self, at: u64, bit: bool) -> Leaf
        ensures { result ≡ leaf_of (inserted at bit (bits_of self)) }
    {
        if at < BLOCK_BITS {
            let first = at < WORD_BITS;
            let word = either(first, self.low, self.high);
            let put = word_insert(word, at % WORD_BITS, bit);
            let over = (self.low >> TOP_BIT) % 2 == 1;
            let above = word_insert(self.high, 0, over);
            return Leaf {
                low: either(first, put, self.low),
                high: either(first, above, put),
            };
        }
        self
    }

    // The leaf without the mark at a place. The marks after it move down by one, and a zero comes in at the end.
    pub fn remove(self, at: u64) -> Leaf
        ensures { result ≡ leaf_of (removed at (bits_of self)) }
    {
        if at < BLOCK_BITS {
            let first = at < WORD_BITS;
            let word = either(first, self.low, self.high);
            let next = first & (self.high % 2 == 1);
            let kept = word_remove(word, at % WORD_BITS, next);
            let above = word_remove(self.high, 0, false);
            return Leaf {
                low: either(first, kept, self.low),
                high: either(first, above, kept),
            };
        }
        self
    }

    // The first len marks of this leaf, and then those of the other, as far as 128 bits reach.
    pub fn join(self, len: u64, other: Leaf) -> Leaf
        ensures { result ≡ leaf_of (take len (bits_of self) ++ bits_of other) }
    {
        if len < WORD_BITS {
            let over = (other.low >> (TOP_BIT - len)) >> 1;
            return Leaf {
                low: word_join(self.low, len, other.low),
                high: word_join(over, len, other.high),
            };
        }
        if len < BLOCK_BITS {
            return Leaf {
                low: self.low,
                high: word_join(self.high, len - WORD_BITS, other.low),
            };
        }
        self
    }

    // The first 64 bits and the last 64, each as a leaf.
    pub fn split(self) -> (Leaf, Leaf)
        ensures { result ≡ halves_of (bits_of self) }
    {
        let left = Leaf {
            low: self.low,
            high: 0,
        };
        let right = Leaf {
            low: self.high,
            high: 0,
        };
        (left, right)
    }

    // How many of the bits before a place are strikes, or quiet ones.
    pub fn count_before(self, end: u64, bit: bool) -> u64
        ensures { result ≡ rank bit end (bits_of self) }
    {
        let ones = ones_before(self, end);
        if bit {
            return ones;
        }
        if end < BLOCK_BITS {
            return end - ones;
        }
        BLOCK_BITS - ones
    }

    // The bit at a place; a zero past the end.
    pub fn bit_at(self, at: u64) -> bool
        ensures { result ≡ access at (bits_of self) }
    {
        if at < WORD_BITS {
            return (self.low >> at) % 2 == 1;
        }
        if at < BLOCK_BITS {
            return (self.high >> (at - WORD_BITS)) % 2 == 1;
        }
        false
    }
}

// The lowest n bits of a word.
fn word_below(word: u64, n: u64) -> u64
    requires { n < 64 }
    ensures { result ≡ word % 2 ^ n }
{
    word & ((1 << n) - 1)
}

// The word with a bit put in at a place; the bits from there on move up by one, and the highest is lost.
fn word_insert(word: u64, at: u64, bit: bool) -> u64
    requires { at < 64 }
    ensures { result ≡ packed (inserted at bit (bits 64 word)) }
{
    let above = ((word >> at) << at) << 1;
    let put = (bit as u64) << at;
    above | (put | word_below(word, at))
}

// The word without the bit at a place; the bits after it move down by one, and `next` comes in as the highest.
fn word_remove(word: u64, at: u64, next: bool) -> u64
    requires { at < 64 }
    ensures { result ≡ packed (removed at (bits 64 word) ++ next ∷ []) }
{
    let above = ((word >> at) >> 1) << at;
    let put = (next as u64) << TOP_BIT;
    put | (above | word_below(word, at))
}

// The first len bits of a word, and then those of the other.
fn word_join(word: u64, len: u64, other: u64) -> u64
    requires { len < 64 }
    ensures { result ≡ packed (take len (bits 64 word) ++ bits 64 other) }
{
    (other << len) | word_below(word, len)
}

// How many of a word's n lowest bits are set.
fn ones_below(word: u64, n: u64) -> u64
    ensures { result ≡ ones (take n (bits 64 word)) }
{
    if n < WORD_BITS {
        return word_below(word, n).ones();
    }
    word.ones()
}

// How many of the bits before a place are set.
fn ones_before(leaf: Leaf, end: u64) -> u64
    ensures { result ≡ rank true end (bits_of leaf) }
{
    let low = ones_below(leaf.low, end);
    if end < WORD_BITS {
        return low;
    }
    low + ones_below(leaf.high, end - WORD_BITS)
}
