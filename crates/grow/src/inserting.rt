// Putting a mark into a tree, by recursion on node numbers. The forks on the way count the mark as they are passed, so
// that there is nothing to do on the way back unless a leaf was split.
ghost use Rattle.std.specs.Prelude.{not, ◌≡◌, pos};
ghost use Rattle.model.specs.Pool.{full};
ghost use Rattle.grow.specs.Inserting.{Inserted, InsertedInto, Settled, ToAsk, ToInsert, ToInsertInto, ToSettle};

use bits::Leaf;
use pool::{
    Chain, Fork, LEVELS, SPLIT_NODES, TreeNode, leaf_or_fork, next_free, set_left, set_node,
};
use tree::{Held, Root};
use turn::{child_changed, stored};

// A leaf that reaches this many marks splits in two halves.
const LEAF_SPLIT: u64 = 128;

const LEAF_HALF: u64 = 64;

// Whether an insert at a place has room: two nodes may be taken, or its leaf does not split. Only where they may not
// the leaf is looked for.
pub fn room(nodes: &[u64], root: Root, may: bool, index: u64) -> bool
    requires { ToAsk nodes.now root index }
    ensures { (b : ToAsk nodes.now root index) → result ≡ not (full may index b.pool) }
{
    may || root.leaf_size(nodes, index) + 1 < LEAF_SPLIT
}

// Puts the halves of a full leaf at the first two free numbers, and the fork over them at n. The free chain's head goes
// beside the words, here and in shrink, and not in a struct with them: what else is called takes the words alone.
fn split(nodes: &mut [u64], head: &mut u64, n: u64, leaf: Leaf)
    requires { ToSettle nodes.old n head.old leaf 128 }
    ensures { (b : ToSettle nodes.old n head.old leaf 128)
        → Settled b nodes.new head.new (pos 1) }
{
    let first = *head;
    let second = next_free(nodes, first);
    *head = next_free(nodes, second);
    let (left, right) = leaf.split();
    set_node(nodes, first, left);
    set_node(nodes, second, right);
    set_node(
        nodes,
        n,
        Fork {
            left: first,
            right: second,
            left_total: LEAF_HALF,
            left_ones: left.count_before(LEAF_HALF, true),
            balance: stored(0),
        },
    );
}

// Puts a leaf of so many marks at n, split where they are too many, and says by how much the tree has grown in height.
fn settle(nodes: &mut [u64], head: &mut u64, n: u64, leaf: Leaf, size: u64) -> i64
    requires { ToSettle nodes.old n head.old leaf size }
    ensures { (b : ToSettle nodes.old n head.old leaf size)
        → Settled b nodes.new head.new result }
{
    if size < LEAF_SPLIT {
        set_node(nodes, n, leaf);
        return 0;
    }
    split(nodes, head, n, leaf);
    1
}

// Puts a mark into a tree, and says by how much the tree has grown in height. `head` is the first free number.
fn insert_below(
    nodes: &mut [u64],
    head: &mut u64,
    root: Root,
    index: u64,
    bit: bool,
    levels: u64,
) -> i64
    requires { ToInsert nodes.old root.node levels head.old root.length index }
    ensures { (b : ToInsert nodes.old root.node levels head.old root.length index)
        → Inserted b nodes.new head.new result bit }
{
    match leaf_or_fork(nodes, root.node) {
        TreeNode::Leaf(leaf) => settle(
            nodes,
            head,
            root.node,
            leaf.insert(index, bit),
            root.length + 1,
        ),
        TreeNode::Fork(fork) => {
            let step = root.toward(fork, index);
            let total = fork.left_total + step.left as u64;
            let ones = fork.left_ones + (step.left & bit) as u64;
            set_left(nodes, root.node, total, ones);
            let change = insert_below(nodes, head, step.child, step.index, bit, levels - 1);
            if change == 0 {
                return 0;
            }
            child_changed(nodes, root.node, step.left, change)
        }
    }
}

// Puts a mark in at a place that has room, and hands the free chain back: its head has moved exactly where a leaf was
// split.
pub fn insert(nodes: &mut [u64], held: Held, index: u64, bit: bool) -> Chain
    requires { ToInsertInto nodes.old held index }
    ensures { (b : ToInsertInto nodes.old held index)
        → InsertedInto b nodes.new result bit }
{
    let mut head = held.chain.first;
    insert_below(nodes, &mut head, held.tree, index, bit, LEVELS);
    if head == held.chain.first {
        return held.chain;
    }
    Chain {
        first: head,
        count: held.chain.count - SPLIT_NODES,
    }
}
