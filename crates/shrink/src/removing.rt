// Taking a mark out of a tree, by recursion on node numbers.
ghost use Rattle.shrink.specs.Removing.{Gone, RemovedFrom, ToRemove, ToRemoveFrom};

use crate::mending::{mend, uncount};
use pool::{Chain, LEAF_LEAST, LEVELS, SPLIT_NODES, TreeNode, leaf_or_fork, set_node};
use tree::{Held, Root};
use turn::child_changed;

// The mark that was taken out, and the free chain.
#[derive(Clone, Copy)]
pub struct Removed {
    pub bit: bool,
    pub chain: Chain,
}

// Takes a mark out of a tree, and says by how much the tree has grown in height: not at all, or by a level less. `bit`
// becomes the mark, and `head` is the first free number. The mark comes by reference: handed back in a struct with the
// change of height it made a remove of a small tree a little slower.
fn remove_below(
    nodes: &mut [u64],
    head: &mut u64,
    bit: &mut bool,
    root: Root,
    index: u64,
    levels: u64,
) -> i64
    requires { ToRemove nodes.old root.node levels head.old root.length index }
    ensures { (b : ToRemove nodes.old root.node levels head.old root.length index)
        → Gone b nodes.new head.new result bit.new }
{
    match leaf_or_fork(nodes, root.node) {
        TreeNode::Leaf(leaf) => {
            set_node(nodes, root.node, leaf.remove(index));
            *bit = leaf.bit_at(index);
            0
        }
        TreeNode::Fork(fork) => {
            let step = root.toward(fork, index);
            let below = levels - 1;
            let change = remove_below(nodes, head, bit, step.child, step.index, below);
            uncount(nodes, root.node, step.left, *bit);
            if step.child.length <= LEAF_LEAST {
                return mend(nodes, head, root.node, step.left, root.length - 1, below);
            }
            if change == 0 {
                return 0;
            }
            child_changed(nodes, root.node, step.left, change)
        }
    }
}

// Takes the mark at a place out, and hands it back with the free chain, whose head has moved exactly where two leaves
// were joined.
pub fn remove(nodes: &mut [u64], held: Held, index: u64) -> Removed
    requires { ToRemoveFrom nodes.old held index }
    ensures { (b : ToRemoveFrom nodes.old held index)
        → RemovedFrom b nodes.new result }
{
    let mut head = held.chain.first;
    let mut bit = false;
    remove_below(nodes, &mut head, &mut bit, held.tree, index, LEVELS);
    if head == held.chain.first {
        return Removed {
            bit,
            chain: held.chain,
        };
    }
    let chain = Chain {
        first: head,
        count: held.chain.count + SPLIT_NODES,
    };
    Removed { bit, chain }
}
