// Mending a fork of which one child, a leaf, has too few marks left: it is joined to the nearest leaf of the other
// child, or borrows a mark from it.
ghost use Rattle.std.specs.Prelude.{◌≡◌, [], ◌∷◌, ◌+◌, ◌<◌, ◌^◌};
ghost use Rattle.std.proofs.Math.ListN as ListN;
ghost use Rattle.bits.specs.Leaf.{leaf_of};
ghost use Rattle.pool.specs.Node.{fork_cell, fork_in, node_at, put};
ghost use Rattle.tree.specs.Stepping.{left_child};
ghost use Rattle.descent.specs.SiteAt.{one_more};
ghost use Rattle.shrink.specs.Mending.{Lent, Mended, Merged, ToBorrow, ToMeasure, ToMend, ToMerge, ToUncount};
ghost use Rattle.shrink.specs.Mending.{both_freed, next_leaf, one_less};

use bits::Leaf;
use pool::{Fork, Free, LEAF_LEAST, fork_at, leaf_at, less_left, move_node, set_node};
use spine::{drop_first, drop_last, first_leaf_size, last_leaf_size, put_after, put_before};
use tree::Root;

// A leaf of one mark.
fn lone(bit: bool) -> Leaf
    ensures { result ≡ leaf_of (bit ∷ []) }
{
    Leaf {
        low: bit as u64,
        high: 0,
    }
}

// A fork whose left child has one mark more.
fn more_left(fork: Fork, bit: bool) -> Fork
    requires { (fork.left_total + 1 < 2 ^ 64) × (fork.left_ones + 1 < 2 ^ 64) }
    ensures { result ≡ one_more fork bit }
{
    Fork {
        left_total: fork.left_total + 1,
        left_ones: fork.left_ones + bit as u64,
        ..fork
    }
}

// The fork at n has one mark less, in its left child or in its right one.
pub fn uncount(nodes: &mut [u64], n: u64, left: bool, bit: bool)
    requires { ToUncount nodes.old n left bit }
    ensures { nodes.new
        ≡ put nodes.old n (fork_cell (one_less (fork_in (node_at nodes.old n)) left bit)) }
{
    less_left(nodes, n, left as u64, (left & bit) as u64);
}

// The tree at the left child.
fn left_tree(fork: Fork) -> Root
    ensures { result ≡ left_child fork }
{
    Root {
        node: fork.left,
        length: fork.left_total,
    }
}

// How many marks the leaf next to a child holds, of a fork that holds `length`.
fn next_size(nodes: &[u64], fork: Fork, left: bool, length: u64, levels: u64) -> u64
    requires { ToMeasure nodes.now levels fork length }
    ensures { (b : ToMeasure nodes.now levels fork length)
        → result ≡ ListN.length (next_leaf left b.over.l b.over.r) }
{
    if left {
        let right = Root {
            node: fork.right,
            length: length - fork.left_total,
        };
        return first_leaf_size(nodes, right, levels);
    }
    last_leaf_size(nodes, left_tree(fork), levels)
}

// The short child is joined to the leaf next to it. The content of the other child's top moves to the number n.
fn merge(nodes: &mut [u64], n: u64, fork: Fork, left: bool, levels: u64)
    requires { ToMerge nodes.old n levels fork left }
    ensures { (b : ToMerge nodes.old n levels fork left) → Merged b nodes.new }
{
    if left {
        let leaf = leaf_at(nodes, fork.left);
        put_before(
            nodes,
            fork.right,
            leaf,
            fork.left_total,
            fork.left_ones,
            levels,
        );
        move_node(nodes, fork.right, n);
        return;
    }
    let leaf = leaf_at(nodes, fork.right);
    put_after(nodes, left_tree(fork), leaf, levels);
    move_node(nodes, fork.left, n);
}

// Puts both children's numbers first in the free chain, the left one and then the right one.
fn free_children(nodes: &mut [u64], head: &mut u64, fork: Fork)
    ensures head_after { head.new ≡ fork.right }
    ensures nodes_after { nodes.new ≡ both_freed nodes.old head.old fork }
{
    set_node(nodes, fork.left, Free(*head));
    set_node(nodes, fork.right, Free(fork.left));
    *head = fork.right;
}

// The leaf next to the short child lends it the mark that stands next to it.
fn borrow(nodes: &mut [u64], n: u64, fork: Fork, left: bool, levels: u64)
    requires { ToBorrow nodes.old n levels fork left }
    ensures { (b : ToBorrow nodes.old n levels fork left) → Lent b nodes.new }
{
    if left {
        let bit = drop_first(nodes, fork.right, levels);
        put_after(nodes, left_tree(fork), lone(bit), levels);
        set_node(nodes, n, more_left(fork, bit));
        return;
    }
    let bit = drop_last(nodes, left_tree(fork), levels);
    put_before(nodes, fork.right, lone(bit), 1, bit as u64, levels);
    uncount(nodes, n, true, bit);
}

// A child of the fork at n, which holds `length`, is a leaf with too few marks: the left one or not. Says by how much
// the fork has grown in height.
pub fn mend(nodes: &mut [u64], head: &mut u64, n: u64, left: bool, length: u64, levels: u64) -> i64
    requires { ToMend nodes.old n levels head.old left length }
    ensures { (b : ToMend nodes.old n levels head.old left length)
        → Mended b nodes.new head.new result }
{
    let fork = fork_at(nodes, n);
    if next_size(nodes, fork, left, length, levels) <= LEAF_LEAST {
        merge(nodes, n, fork, left, levels);
        free_children(nodes, head, fork);
        return -1;
    }
    borrow(nodes, n, fork, left, levels);
    0
}
