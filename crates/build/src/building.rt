// Building a tree from words: leaves of 64 marks from the left, then rounds that join pairs from the right end. Leaves
// take the numbers from 0 on, forks the next ones as they are made, and the numbers that are left form the free chain
// upward. Of the trees that wait to be joined only the leftmost is remembered: what the others are follows from their
// places.
ghost use Rattle.std.specs.Prelude.{Some, ◌≡◌, min, ◌*◌, ◌-◌, ◌<◌, ◌≤◌, ◌^◌, length as count_of, take};
ghost use Rattle.model.specs.Build.{leaf_count};
ghost use Rattle.model.specs.Pool as Pool;
ghost use Rattle.model.specs.Word.{bits as bits_in, marks_of};
ghost use Rattle.bits.specs.Leaf.{leaf_of};
ghost use Rattle.pool.specs.Node.{nodes_in};
ghost use Rattle.build.specs.Built.{Room, BuiltAs};
ghost use Rattle.build.specs.Waiting.{Forked, Freeing, AllJoined, Joinable, Leafy, Planted, Ready, Rounded};
ghost use Rattle.build.specs.Waiting.{item_at, leaf_marks, row_above};

use bits::Leaf;
use pool::{Chain, Fork, Free, node_count, set_node};
use tree::{Held, Root};

// How many marks a built leaf takes, the last one perhaps fewer.
const LEAF_BUILT: u64 = 64;

// A tree that waits to be joined, and its height.
#[derive(Clone, Copy)]
struct Item {
    tree: Root,
    height: u64,
}

// The trees that wait for a round, so many of them, the rightmost first. All but the last are of one height and, but
// for the first, of as many marks; the first has the number `first`, and the next ones' fall where they are leaves, and
// rise where they are forks. The marks of the rightmost are never asked for, since it is no left child.
#[derive(Clone, Copy)]
struct Row {
    first: u64,
    total: u64,
    height: u64,
    count: u64,
    last: Item,
}

// How many leaves so many marks take; no marks take one.
pub fn leaf_count(length: u64) -> u64
    ensures { result ≡ leaf_count length }
{
    length.div_ceil(LEAF_BUILT).max(1)
}

// How many marks the leaf i takes.
fn leaf_total(length: u64, i: u64) -> u64
    requires { i * 64 ≤ length }
    ensures { result ≡ min 64 (length - i * 64) }
{
    (length - i * LEAF_BUILT).min(LEAF_BUILT)
}

// The leaf of a word's first marks.
fn first_marks(word: u64, total: u64) -> Leaf
    requires { total ≤ 64 }
    ensures { result ≡ leaf_of (take total (bits_in 64 word)) }
{
    let leaf = Leaf { low: word, high: 0 };
    leaf.join(total, Leaf::EMPTY)
}

// The leaf i of the first `length` bits of the words, empty where there are none.
fn leaf_of_words(words: &[u64], length: u64, i: u64) -> Leaf
    requires { (i * 64 ≤ length) × (length ≤ 64 * count_of words.now) }
    ensures { result ≡ leaf_of (leaf_marks words.now length i) }
{
    let total = leaf_total(length, i);
    if total == 0 {
        return Leaf::EMPTY;
    }
    first_marks(words[i as usize], total)
}

// Puts every leaf at its number.
fn put_leaves(nodes: &mut [u64], words: &[u64], length: u64, leaves: u64) -> Row
    requires { Leafy nodes.old words.now length leaves }
    ensures { Planted nodes.old nodes.new
        (take length (marks_of words.now)) leaves result }
{
    for i in 0..leaves {
        set_node(nodes, i, leaf_of_words(words, length, i));
    }
    Row {
        first: leaves - 1,
        total: LEAF_BUILT,
        height: 0,
        count: leaves,
        last: Item {
            tree: Root {
                node: 0,
                length: LEAF_BUILT,
            },
            height: 0,
        },
    }
}

// The tree at a place of a row, the rightmost at 0; not the last one.
fn waiting(row: Row, at: u64) -> Item
    requires { (at ≤ row.first) × (row.first < 2 ^ 32) }
    ensures { result ≡ item_at row at }
{
    let node = if row.height == 0 {
        row.first - at
    } else {
        row.first + at
    };
    Item {
        tree: Root {
            node,
            length: row.total,
        },
        height: row.height,
    }
}

// Joins two trees by a fork at n. The stored balance is two more than right height less left height.
fn joined(nodes: &mut [u64], n: u64, left: Item, right: Item) -> Item
    requires { Joinable nodes.old left right }
    ensures { Forked nodes.old nodes.new n left right result }
{
    let ones = left.tree.rank(nodes, left.tree.length, true);
    set_node(
        nodes,
        n,
        Fork {
            left: left.tree.node,
            right: right.tree.node,
            left_total: left.tree.length,
            left_ones: ones,
            balance: right.height + 2 - left.height,
        },
    );
    Item {
        tree: Root {
            node: n,
            length: left.tree.length + right.tree.length,
        },
        height: left.height.max(right.height) + 1,
    }
}

// What waits after a round, the last tree being told.
fn row_above(row: Row, next: u64, last: Item) -> Row
    requires { (row.total < 2 ^ 32) × (row.height < 2 ^ 32) }
    ensures { result ≡ row_above row next last }
{
    Row {
        first: next,
        total: row.total * 2,
        height: row.height + 1,
        count: row.count / 2,
        last,
    }
}

// One round on two or more trees: pairs are joined while four or more are left, then the last pair, and an odd last
// tree joins, as left child, that pair. The forks take the numbers from `next` on.
fn round(nodes: &mut [u64], row: Row, next: u64) -> Row
    requires { (2 ≤ row.count) × Ready nodes.old row next }
    ensures { Rounded nodes.old nodes.new row result next }
{
    let pairs = row.count / 2 - 1;
    for i in 0..pairs {
        joined(
            nodes,
            next + i,
            waiting(row, i * 2 + 1),
            waiting(row, i * 2),
        );
    }
    let n = next + pairs;
    let right = waiting(row, pairs * 2);
    if row.count % 2 == 0 {
        return row_above(row, next, joined(nodes, n, row.last, right));
    }
    let pair = joined(nodes, n, waiting(row, pairs * 2 + 1), right);
    row_above(row, next, joined(nodes, n + 1, row.last, pair))
}

// Round upon round until one tree is left; its number.
fn rounds(nodes: &mut [u64], leaves: Row) -> u64
    requires { (1 ≤ leaves.count) × Ready nodes.old leaves leaves.count }
    ensures { AllJoined nodes.old nodes.new leaves result }
{
    let mut row = leaves;
    let mut next = leaves.count;
    while row.count > 1 {
        let taken = row.count - row.count / 2;
        row = round(nodes, row, next);
        next += taken;
    }
    row.last.tree.node
}

// The free chain over the numbers from `first` on.
fn chain_from(nodes: &mut [u64], first: u64) -> Chain
    requires { first ≤ nodes_in nodes.old }
    ensures { Freeing nodes.old nodes.new first result }
{
    let end = node_count(nodes);
    for n in first..end {
        set_node(nodes, n, Free(n + 1));
    }
    Chain {
        first,
        count: end - first,
    }
}

// Builds the tree of the first `length` bits of the words.
pub fn build(nodes: &mut [u64], words: &[u64], length: u64) -> Held
    requires { Room nodes.old words.now length }
    ensures { (p : Pool.Pool)
        → Pool.build (nodes_in nodes.old) (take length (marks_of words.now)) ≡ Some p
        → BuiltAs nodes.new (nodes_in nodes.old) result p }
{
    let leaves = leaf_count(length);
    let row = put_leaves(nodes, words, length, leaves);
    let node = rounds(nodes, row);
    let chain = chain_from(nodes, leaves * 2 - 1);
    Held {
        tree: Root { node, length },
        chain,
    }
}
