// Each function goes down one edge of a tree to its leaf. Only forks of the left edge store what changes there: how
// many marks, and how many strikes, their left child holds. At the right edge it is enough to find the leaf.
ghost use Rattle.std.specs.Prelude.{◌≡◌, List, Bool, ◌+◌, ◌^◌, ◌<◌};
ghost use Rattle.std.proofs.Math.ListN as ListN;
ghost use Rattle.model.specs.Edit.{drop_first, drop_last, first_mark, last_mark, put_after, put_before};
ghost use Rattle.model.specs.Tree as Tree;
ghost use Rattle.model.specs.Tree.{Tree, first_leaf, last_leaf, numbers};
ghost use Rattle.pool.specs.Layout.{Edited};
ghost use Rattle.pool.specs.Node.{with_left};
ghost use Rattle.tree.specs.TreeAt.{TreeAt};
ghost use Rattle.spine.specs.Edges.{IsLast, Taken, ToDropFirst, ToDropLast, ToPutAfter, ToPutBefore};

use bits::Leaf;
use pool::{Fork, TreeNode, leaf_at, leaf_or_fork, less_left, set_node};
use tree::Root;

// How many marks the leftmost leaf holds.
pub fn first_leaf_size(nodes: &[u64], root: Root, levels: u64) -> u64
    requires { TreeAt nodes.now root levels }
    ensures { (s : TreeAt nodes.now root levels) → result ≡ ListN.length (first_leaf s.tree) }
{
    match leaf_or_fork(nodes, root.node) {
        TreeNode::Leaf(_) => root.length,
        TreeNode::Fork(fork) => {
            let (left, _) = root.children(fork);
            first_leaf_size(nodes, left, levels - 1)
        }
    }
}

// The leaf at the right edge, a tree by itself.
fn last_leaf(nodes: &[u64], root: Root, levels: u64) -> Root
    requires { TreeAt nodes.now root levels }
    ensures { (s : TreeAt nodes.now root levels) → IsLast result s.tree }
{
    match leaf_or_fork(nodes, root.node) {
        TreeNode::Leaf(_) => root,
        TreeNode::Fork(fork) => {
            let (_, right) = root.children(fork);
            last_leaf(nodes, right, levels - 1)
        }
    }
}

// How many marks the rightmost leaf holds.
pub fn last_leaf_size(nodes: &[u64], root: Root, levels: u64) -> u64
    requires { TreeAt nodes.now root levels }
    ensures { (s : TreeAt nodes.now root levels) → result ≡ ListN.length (last_leaf s.tree) }
{
    last_leaf(nodes, root, levels).length
}

// A fork whose left child holds so many marks now, so many of them strikes.
fn with_left(fork: Fork, total: u64, ones: u64) -> Fork
    ensures { result ≡ with_left fork total ones }
{
    Fork {
        left_total: total,
        left_ones: ones,
        ..fork
    }
}

// Puts the `size` marks of a leaf, `ones` of them strikes, before the first mark of the tree at n.
pub fn put_before(nodes: &mut [u64], n: u64, leaf: Leaf, size: u64, ones: u64, levels: u64)
    requires { (t : Tree) × (ys : List Bool) × ToPutBefore nodes.old n levels leaf size ones t ys
        × (Tree.size t + size < 2 ^ 64) }
    ensures { (t : Tree) (ys : List Bool) → ToPutBefore nodes.old n levels leaf size ones t ys
        → Edited nodes.old nodes.new (numbers t) (put_before ys t) }
{
    match leaf_or_fork(nodes, n) {
        TreeNode::Leaf(old) => set_node(nodes, n, leaf.join(size, old)),
        TreeNode::Fork(fork) => {
            put_before(nodes, fork.left, leaf, size, ones, levels - 1);
            let counted = with_left(fork, fork.left_total + size, fork.left_ones + ones);
            set_node(nodes, n, counted);
        }
    }
}

// Puts the marks of a leaf after the last mark of a tree.
pub fn put_after(nodes: &mut [u64], root: Root, leaf: Leaf, levels: u64)
    requires { (t : Tree) × (ys : List Bool) × ToPutAfter nodes.old root levels leaf t ys }
    ensures { (t : Tree) (ys : List Bool) → ToPutAfter nodes.old root levels leaf t ys
        → Edited nodes.old nodes.new (numbers t) (put_after ys t) }
{
    let last = last_leaf(nodes, root, levels);
    let old = leaf_at(nodes, last.node);
    set_node(nodes, last.node, old.join(last.length, leaf));
}

// Takes the first mark off the tree at n, and hands it back.
pub fn drop_first(nodes: &mut [u64], n: u64, levels: u64) -> bool
    requires { (t : Tree) × ToDropFirst nodes.old n levels t }
    ensures { (t : Tree) → ToDropFirst nodes.old n levels t
        → Taken nodes.old nodes.new t (first_mark t) (drop_first t) result }
{
    match leaf_or_fork(nodes, n) {
        TreeNode::Leaf(leaf) => {
            set_node(nodes, n, leaf.remove(0));
            leaf.bit_at(0)
        }
        TreeNode::Fork(fork) => {
            let bit = drop_first(nodes, fork.left, levels - 1);
            less_left(nodes, n, 1, bit as u64);
            bit
        }
    }
}

// Takes the last mark off a tree, and hands it back.
pub fn drop_last(nodes: &mut [u64], root: Root, levels: u64) -> bool
    requires { (t : Tree) × ToDropLast nodes.old root levels t }
    ensures { (t : Tree) → ToDropLast nodes.old root levels t
        → Taken nodes.old nodes.new t (last_mark t) (drop_last t) result }
{
    let last = last_leaf(nodes, root, levels);
    let leaf = leaf_at(nodes, last.node);
    let index = last.length - 1;
    set_node(nodes, last.node, leaf.remove(index));
    leaf.bit_at(index)
}
