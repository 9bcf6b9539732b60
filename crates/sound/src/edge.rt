// What a tree would have that stands in some node words: its right edge tells how many strikes and how many levels.
// Little else is tested, so that what it tells is a claim for the visit to hold against the words.
ghost use Rattle.std.specs.Prelude.{◌≡◌, ◌-◌, min};
ghost use Rattle.sound.specs.Part.{Told};

use crate::visit::{MOST_BALANCE, below, fork_fits};
use pool::{LEVELS, Node, node_at};

// The most levels of a tree of 1,023 nodes.
const MOST_LEVELS: u64 = LEVELS + 1;

// The strikes and the levels of a tree.
#[derive(Clone, Copy, Debug, PartialEq, Eq, Hash)]
pub struct Edge {
    pub ones: u64,
    pub levels: u64,
}

// Goes down the right edge from the root of a tree of so many marks, if one can stand there. A fork's left child has no
// more strikes than marks, and there are as many levels left as a tree of the most levels would have there.
pub fn right_edge(nodes: &[u64], root: u64, length: u64) -> Option<Edge>
    ensures { Told nodes.now root length result }
{
    let mut n = root;
    let mut total = length;
    let mut ones = 0;
    let mut left = MOST_LEVELS;
    while left > 0 {
        match node_at(nodes, n) {
            Node::Fork(fork) => {
                if !fork_fits(fork, total, fork.left_total, left) {
                    return None;
                }
                n = fork.right;
                total -= fork.left_total;
                ones += fork.left_ones;
                left = below(left, MOST_BALANCE - fork.balance);
            }
            Node::Leaf(leaf) => {
                return Some(Edge {
                    ones: ones + leaf.count_before(total, true),
                    levels: MOST_LEVELS + 1 - left,
                });
            }
            Node::Free(_) | Node::Broken => return None,
        }
    }
    None
}

// The fewest marks that the last leaf of a whole tree of so many levels may hold: a lone leaf may be empty.
pub fn least_of(levels: u64) -> u64
    ensures { result ≡ min 1 (levels - 1) }
{
    levels.saturating_sub(1).min(1)
}
