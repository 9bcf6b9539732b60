// Asking a tree: each question goes down one path.
ghost use Rattle.std.specs.Prelude.{true, ◌≡◌, ◌≤◌, ◌<◌};
ghost use Rattle.std.proofs.Math.ListN as ListN;
ghost use Rattle.model.specs.Edit.{leaf_at};
ghost use Rattle.model.specs.Limits.{levels};
ghost use Rattle.model.specs.Marks as Marks;
ghost use Rattle.model.specs.Tree.{marks};
ghost use Rattle.bits.specs.Leaf.{bits_of};
ghost use Rattle.tree.specs.Query.{Near, Spotted, found_at, of_kind};
ghost use Rattle.tree.specs.TreeAt.{TreeAt};

use crate::root::Root;
use bits::{Leaf, WORD_BITS, either};
use pool::{LEVELS, TreeNode, leaf_or_fork};
use select::select128;

// Where a place of a tree lies: the leaf, how many marks it holds, the place in it, and how many strikes stand before
// the leaf.
#[derive(Clone, Copy, Debug, PartialEq, Eq, Hash)]
pub struct Spot {
    pub leaf: Leaf,
    pub length: u64,
    pub at: u64,
    pub ones: u64,
}

impl Root {
    // The leaf that a place leads to: left where it is below the left child's total, else right.
    fn reach(self, nodes: &[u64], place: u64) -> Spot
        requires { TreeAt nodes.now self levels × (place ≤ self.length) }
        ensures { (s : TreeAt nodes.now self levels) → Spotted s.tree place result }
    {
        let mut here = self;
        let mut at = place;
        let mut ones = 0;
        // the levels left are the measure alone: a `for` over them would end in a case that no tree has
        let mut levels = LEVELS;
        loop {
            match leaf_or_fork(nodes, here.node) {
                TreeNode::Leaf(leaf) => {
                    return Spot {
                        leaf,
                        length: here.length,
                        at,
                        ones,
                    };
                }
                TreeNode::Fork(fork) => {
                    levels -= 1;
                    let step = here.toward(fork, at);
                    here = step.child;
                    at = step.index;
                    ones += either(step.left, 0, fork.left_ones);
                }
            }
        }
    }

    // How many marks the leaf holds that a place leads to.
    pub fn leaf_size(self, nodes: &[u64], place: u64) -> u64
        requires { TreeAt nodes.now self levels × (place ≤ self.length) }
        ensures { (s : TreeAt nodes.now self levels) → result ≡ ListN.length (leaf_at place s.tree) }
    {
        self.reach(nodes, place).length
    }

    // The mark at a place.
    pub fn access(self, nodes: &[u64], index: u64) -> bool
        requires { TreeAt nodes.now self levels × (index < self.length) }
        ensures { (s : TreeAt nodes.now self levels) → result ≡ Marks.access index (marks s.tree) }
    {
        let spot = self.reach(nodes, index);
        mark_at(spot.leaf, spot.at)
    }

    // How many strikes stand before a place.
    fn strikes(self, nodes: &[u64], end: u64) -> u64
        requires { TreeAt nodes.now self levels × (end ≤ self.length) }
        ensures { (s : TreeAt nodes.now self levels) → result ≡ Marks.rank true end (marks s.tree) }
    {
        let spot = self.reach(nodes, end);
        spot.ones + spot.leaf.count_before(spot.at, true)
    }

    // How many marks of a kind stand before a place.
    pub fn rank(self, nodes: &[u64], end: u64, bit: bool) -> u64
        requires { TreeAt nodes.now self levels × (end ≤ self.length) }
        ensures { (s : TreeAt nodes.now self levels) → result ≡ Marks.rank bit end (marks s.tree) }
    {
        wanted(end, self.strikes(nodes, end), bit)
    }

    // The place of the k-th strike, or quiet frame, k from 1; none where there are too few. The walk passes over `skip`
    // of the kind, and ends in the last leaf where the tree has too few.
    pub fn select(self, nodes: &[u64], bit: bool, k: u64) -> Option<u64>
        requires { TreeAt nodes.now self levels × (1 ≤ k) }
        ensures { (s : TreeAt nodes.now self levels) → result ≡ Marks.select bit k (marks s.tree) }
    {
        let mut n = self.node;
        let mut skip = k - 1;
        let mut before = 0;
        // as in `reach`, the levels left are the measure alone
        let mut levels = LEVELS;
        loop {
            match leaf_or_fork(nodes, n) {
                TreeNode::Leaf(leaf) => return placed(
                    before,
                    self.length,
                    select128(leaf.low, leaf.high, bit, skip + 1),
                ),
                TreeNode::Fork(fork) => {
                    levels -= 1;
                    let here = wanted(fork.left_total, fork.left_ones, bit);
                    let first = skip < here;
                    n = either(first, fork.left, fork.right);
                    before += either(first, 0, fork.left_total);
                    skip -= either(first, 0, here);
                }
            }
        }
    }
}

// The bit of a leaf at a place, read off the word that holds it: `Leaf::bit_at` of a place that is in the leaf, without
// its two jumps.
fn mark_at(leaf: Leaf, at: u64) -> bool
    requires { at < 128 }
    ensures { result ≡ Marks.access at (bits_of leaf) }
{
    let word = either(at < WORD_BITS, leaf.low, leaf.high);
    (word >> (at % WORD_BITS)) % 2 == 1
}

// How many of so many marks are of a kind, where so many are strikes.
fn wanted(total: u64, ones: u64, bit: bool) -> u64
    requires { ones ≤ total }
    ensures { result ≡ of_kind bit total ones }
{
    if bit { ones } else { total - ones }
}

// A place in a leaf, with the marks before the leaf counted in. The zeros past the marks of the last leaf are no quiet
// frames.
fn placed(before: u64, length: u64, place: Option<u64>) -> Option<u64>
    requires { Near before place }
    ensures { result ≡ found_at before length place }
{
    let found = before + place?;
    if found < length { Some(found) } else { None }
}
