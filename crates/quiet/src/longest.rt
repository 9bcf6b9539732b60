// One visit of the leaves, from the left; no list of places is made.
ghost use Rattle.std.specs.Prelude.{true, ◌≡◌, ◌+◌, ◌^◌, ◌≤◌, ◌<◌, take};
ghost use Rattle.model.specs.Limits.{levels};
ghost use Rattle.model.specs.Marks as Marks;
ghost use Rattle.model.specs.Tree.{marks};
ghost use Rattle.model.specs.Word.{bits};
ghost use Rattle.bits.specs.Leaf.{bits_of};
ghost use Rattle.tree.specs.TreeAt.{TreeAt};
ghost use Rattle.quiet.specs.Watching.{later, passed, step, watched};

use bits::{Leaf, WORD_BITS};
use pool::{LEVELS, TreeNode, leaf_or_fork};
use tree::Root;

// How far the visit has come: how many quiet frames have passed since the last strike, once one was met, and the
// longest quiet between two strikes so far. That the count fits depends on how many marks still come, so each step asks
// it.
#[derive(Clone, Copy, Default)]
struct Watch {
    since: Option<u64>,
    longest: u64,
}

// After so many quiet frames more.
fn after_quiet(watch: Watch, quiet: u64) -> Watch
    requires { passed watch + quiet < 2 ^ 64 }
    ensures { result ≡ later quiet watch }
{
    Watch {
        since: watch.since.map(|since| since + quiet),
        ..watch
    }
}

// After so many quiet frames more and a strike.
#[tactic(auto, unfolding(crate::specs::Watching::step, crate::specs::Watching::ended))]
fn after_strike(watch: Watch, quiet: u64) -> Watch
    requires { passed watch + quiet < 2 ^ 64 }
    ensures { result ≡ step (later quiet watch) true }
{
    let longest = match watch.since {
        Some(since) => watch.longest.max(since + quiet),
        None => watch.longest,
    };
    Watch {
        since: Some(0),
        longest,
    }
}

// After the lowest bits of a word, so many. The zeros below its lowest one are the quiet frames before the next strike;
// the ones from there on are strikes with no quiet frame between them, so that all but the first change nothing.
fn after_word(watch: Watch, word: u64, length: u64) -> Watch
    requires { (length ≤ 64) × (passed watch + length < 2 ^ 64) }
    ensures { result ≡ watched watch (bits length word) }
{
    let mut now = watch;
    let mut rest = word;
    let mut left = length;
    loop {
        let quiet = rest.trailing_zeros() as u64;
        if left <= quiet {
            return after_quiet(now, left);
        }
        now = after_strike(now, quiet);
        let high = rest >> quiet;
        left -= quiet;
        let run = (!high).trailing_zeros() as u64;
        if left <= run {
            return now;
        }
        rest = high >> run;
        left -= run;
    }
}

// After the first marks of a leaf, so many.
fn after_leaf(watch: Watch, leaf: Leaf, length: u64) -> Watch
    requires { (length ≤ 128) × (passed watch + length < 2 ^ 64) }
    ensures { result ≡ watched watch (take length (bits_of leaf)) }
{
    if length < WORD_BITS {
        return after_word(watch, leaf.low, length);
    }
    let first = after_word(watch, leaf.low, WORD_BITS);
    after_word(first, leaf.high, length - WORD_BITS)
}

// After the marks of a tree.
fn after_tree(nodes: &[u64], root: Root, watch: Watch, levels: u64) -> Watch
    requires { TreeAt nodes.now root levels × (passed watch + root.length < 2 ^ 64) }
    ensures { (s : TreeAt nodes.now root levels) → result ≡ watched watch (marks s.tree) }
{
    match leaf_or_fork(nodes, root.node) {
        TreeNode::Leaf(leaf) => after_leaf(watch, leaf, root.length),
        TreeNode::Fork(fork) => {
            let below = levels - 1;
            let (left, right) = root.children(fork);
            let first = after_tree(nodes, left, watch, below);
            after_tree(nodes, right, first, below)
        }
    }
}

// The longest quiet between two neighbouring strikes of a tree; 0 with fewer than two strikes.
pub fn longest_quiet(nodes: &[u64], root: Root) -> u64
    requires { TreeAt nodes.now root levels }
    ensures { (s : TreeAt nodes.now root levels) → result ≡ Marks.longest_quiet (marks s.tree) }
{
    after_tree(nodes, root, Watch::default(), LEVELS).longest
}
