// Writing the marks of a tree out as words, lowest bit first: two words for each 128 marks begun, the last padded with
// zeros. The leaves are visited from the left, and a word is written once it is full.
ghost use Rattle.std.specs.Prelude.{List, ◌++◌, Bool, ◌≡◌, ℕ, ◌+◌, ◌^◌, ◌≤◌, ◌<◌, drop, set};
ghost use Rattle.std.proofs.Math.ListN as ListN;
ghost use Rattle.model.specs.Limits.{levels};
ghost use Rattle.model.specs.Tree.{marks};
ghost use Rattle.model.specs.Word.{number, words_for, words_of};
ghost use Rattle.bits.specs.Leaf.{leaf_of};
ghost use Rattle.tree.specs.TreeAt.{TreeAt};
ghost use Rattle.values.specs.Writing.{Adds, Moved, Written, taken};

use bits::{BLOCK_BITS, Leaf, TOP_BIT, WORD_BITS};
use pool::{LEVELS, TreeNode, leaf_or_fork};
use tree::Root;

// How far the output has come: so many words are full, and `filled` marks of the next one wait in `word`. That they are
// fewer than 64 is asked of each step and handed on by `Moved`; as an invariant it would have to be shown of every tail
// that a definition writes down.
#[derive(Clone, Copy, Default)]
struct Tail {
    full: u64,
    filled: u64,
    word: u64,
}

// An output, and how far it has come.
#[derive(Drop)]
struct Writing<'a> {
    out: &'a mut [u64],
    tail: Tail,
}

// How many words so many marks take.
pub fn words_for(length: u64) -> u64
    requires { length + 127 < 2 ^ 64 }
    ensures { result ≡ words_for length }
{
    length.div_ceil(BLOCK_BITS) * 2
}

impl Writing<'_> {
    // Sets the word at i, where there is one.
    fn put_word(&mut self, i: u64, word: u64)
        ensures same { self.new.out.ghost_name ≡ self.old.out.ghost_name }
        ensures put { self.new.out.now ≡ set self.old.out.now i word }
        ensures tail { self.new.tail ≡ self.old.tail }
    {
        // by index, as of a write through `get_mut` a proof knows the length alone
        let at = i as usize;
        if at < self.out.len() {
            self.out[at] = word;
        }
    }

    // Adds n marks, at most 64, the lowest bits of a word.
    fn add_word(&mut self, n: u64, bits: u64)
        requires { (self.old.tail.filled < 64) × (n ≤ 64) × (self.old.tail.full + 1 < 2 ^ 64) }
        ensures same { self.new.out.ghost_name ≡ self.old.out.ghost_name }
        ensures moved { Moved self.old.tail n self.new.tail }
        ensures adds { (ys : List Bool) → ListN.length ys ≡ n → bits ≡ number ys
            → Adds ys self.old.out.now self.old.tail self.new.out.now self.new.tail }
    {
        let tail = self.tail;
        let word = (bits << tail.filled) | tail.word;
        let filled = tail.filled + n;
        if filled < WORD_BITS {
            self.tail = Tail {
                filled,
                word,
                ..tail
            };
            return;
        }
        self.put_word(tail.full, word);
        self.tail = Tail {
            full: tail.full + 1,
            filled: filled - WORD_BITS,
            word: (bits >> (TOP_BIT - tail.filled)) >> 1,
        };
    }

    // Adds the marks of a leaf, so many.
    fn add_leaf(&mut self, length: u64, leaf: Leaf)
        requires { (self.old.tail.filled < 64) × (length ≤ 127) × (self.old.tail.full + 2 < 2 ^ 64) }
        ensures same { self.new.out.ghost_name ≡ self.old.out.ghost_name }
        ensures moved { Moved self.old.tail length self.new.tail }
        ensures adds { (ys : List Bool) → ListN.length ys ≡ length → leaf ≡ leaf_of ys
            → Adds ys self.old.out.now self.old.tail self.new.out.now self.new.tail }
    {
        if length < WORD_BITS {
            self.add_word(length, leaf.low);
            return;
        }
        self.add_word(WORD_BITS, leaf.low);
        self.add_word(length - WORD_BITS, leaf.high);
    }

    // Adds the marks of a tree.
    fn add_marks(&mut self, nodes: &[u64], root: Root, levels: u64)
        requires { TreeAt nodes.now root levels × (self.old.tail.filled < 64)
            × (taken self.old.tail + root.length < 2 ^ 32) }
        ensures same { self.new.out.ghost_name ≡ self.old.out.ghost_name }
        ensures moved { Moved self.old.tail root.length self.new.tail }
        ensures adds { (s : TreeAt nodes.now root levels)
            → Adds (marks s.tree) self.old.out.now self.old.tail self.new.out.now self.new.tail }
    {
        match leaf_or_fork(nodes, root.node) {
            TreeNode::Leaf(leaf) => self.add_leaf(root.length, leaf),
            TreeNode::Fork(fork) => {
                let below = levels - 1;
                let (left, right) = root.children(fork);
                self.add_marks(nodes, left, below);
                self.add_marks(nodes, right, below);
            }
        }
    }

    // Writes what waits, and a zero word where one more is due.
    fn finish(&mut self, words: u64)
        requires { self.old.tail.full + 1 < 2 ^ 64 }
        ensures same { self.new.out.ghost_name ≡ self.old.out.ghost_name }
        ensures written { (o : List ℕ) (xs : List Bool) → words ≡ words_for (ListN.length xs) → words ≤ ListN.length o
            → Written o xs self.old.out.now self.old.tail → self.new.out.now ≡ words_of words xs ++ drop words o }
    {
        let tail = self.tail;
        if words <= tail.full {
            return;
        }
        self.put_word(tail.full, tail.word);
        if words <= tail.full + 1 {
            return;
        }
        self.put_word(tail.full + 1, 0);
    }
}

// Writes the marks of a tree out. The words after them stay.
pub fn values(nodes: &[u64], root: Root, out: &mut [u64])
    requires { TreeAt nodes.now root levels × (words_for root.length ≤ ListN.length out.old) }
    ensures { (s : TreeAt nodes.now root levels) → out.new
        ≡ words_of (words_for root.length) (marks s.tree) ++ drop (words_for root.length) out.old }
{
    let mut writing = Writing {
        out,
        tail: Tail::default(),
    };
    writing.add_marks(nodes, root, LEVELS);
    writing.finish(words_for(root.length));
}
