// A node of the pool, read from its six words and written to them. `node_at` and the writers take any words and any
// number: where there is no such node, or its words are not laid out as one, it says so, and they do nothing. Shorter
// ways are for callers who know what stands at n: the other readers test no word that they need not, and `set_left` and
// `less_left` write two words of a fork.
//
//     free        0, next free number, 0, 0, 0, 0
//     leaf        1, low word, high word, 0, 0, 0
//     fork        2, left, right, left total, left ones, balance + 2
ghost use Rattle.std.specs.Prelude.{◌≡◌, ℕ, ◌<◌, ◌≤◌};
ghost use Rattle.pool.specs.Node.{LeafOrFork, OfTree, as_node, balance_in, cell_at, fork_cell, fork_in};
ghost use Rattle.pool.specs.Node.{IsKind, fork_words, free_cell, if_zero, leaf_cell, leaf_in, leaf_words, less_left};
ghost use Rattle.pool.specs.Node.{next_in, node_at, node_of, nodes_in, of_kind, put, put_node, with_left};

use crate::limits::NODE_WORDS;
use bits::Leaf;

// What stands in a node, by the number that is its first word.
#[derive(Clone, Copy)]
enum Kind {
    Free = 0,
    Leaf = 1,
    Fork = 2,
}

// A first word that names no kind of node.
#[derive(Clone, Copy)]
struct UnknownKind(u64);

impl TryFrom<u64> for Kind {
    type Error = UnknownKind;

    ghost try_from_gives = { IsKind };

    fn try_from(word: u64) -> Result<Kind, UnknownKind> {
        match word {
            0 => Ok(Kind::Free),
            1 => Ok(Kind::Leaf),
            2 => Ok(Kind::Fork),
            _ => Err(UnknownKind(word)),
        }
    }
}

// A free node, which holds the number of the next one.
#[derive(Clone, Copy, Debug, PartialEq, Eq, Hash)]
pub struct Free(pub u64);

// A fork's children, how many marks and how many strikes its left child holds, and its balance as stored, two more than
// right height less left height.
#[derive(Clone, Copy, Debug, PartialEq, Eq, Hash)]
pub struct Fork {
    pub left: u64,
    pub right: u64,
    pub left_total: u64,
    pub left_ones: u64,
    pub balance: u64,
}

// What stands at a number. Broken is a kind of its own and no missing value: who reads a node names the kind that is
// wanted, which is no plainer over an Option.
#[derive(Clone, Copy, Debug, PartialEq, Eq, Hash)]
pub enum Node {
    Free(u64),
    Leaf(Leaf),
    Fork(Fork),
    Broken,
}

// A node of a tree.
#[derive(Clone, Copy, Debug, PartialEq, Eq, Hash)]
pub enum TreeNode {
    Leaf(Leaf),
    Fork(Fork),
}

// The six words of a node as they stand.
#[derive(Clone, Copy, Debug, PartialEq, Eq, Hash)]
pub struct Cell {
    kind: u64,
    second: u64,
    third: u64,
    fourth: u64,
    fifth: u64,
    sixth: u64,
}

// What is put at a number: its six words. Beside `Into<Cell>`, whose contract is a relation: of this one a caller knows
// the very words.
pub trait Words {
    ghost use Rattle.pool.specs.declared.node.Cell.{Cell};

    ghost cell: { Self → Cell };

    fn words(self) -> Cell
        ensures { result ≡ cell self };
}

impl Words for Free {
    ghost cell = { λ f. free_cell f.0 };

    fn words(self) -> Cell {
        Cell {
            kind: Kind::Free as u64,
            second: self.0,
            third: 0,
            fourth: 0,
            fifth: 0,
            sixth: 0,
        }
    }
}

impl Words for Leaf {
    ghost cell = { leaf_cell };

    fn words(self) -> Cell {
        Cell {
            kind: Kind::Leaf as u64,
            second: self.low,
            third: self.high,
            fourth: 0,
            fifth: 0,
            sixth: 0,
        }
    }
}

impl Words for Fork {
    ghost cell = { fork_cell };

    fn words(self) -> Cell {
        Cell {
            kind: Kind::Fork as u64,
            second: self.left,
            third: self.right,
            fourth: self.left_total,
            fifth: self.left_ones,
            sixth: self.balance,
        }
    }
}

// How many nodes these words have room for.
pub fn node_count(nodes: &[u64]) -> u64
    ensures { result ≡ nodes_in nodes.now }
{
    nodes.len() as u64 / NODE_WORDS
}

// Node n's six words; n is a node's number. They are read one by one: cut by sixes, each read would divide the slice's
// length.
fn cell_at(nodes: &[u64], n: u64) -> Cell
    requires { n < nodes_in nodes.now }
    ensures { result ≡ cell_at nodes.now n }
{
    let at = (n * NODE_WORDS) as usize;
    Cell {
        kind: nodes[at],
        second: nodes[at + 1],
        third: nodes[at + 2],
        fourth: nodes[at + 3],
        fifth: nodes[at + 4],
        sixth: nodes[at + 5],
    }
}

// Writes node n's six words, where there is such a node. They are written one by one, as they are read.
fn put_cell(nodes: &mut [u64], n: u64, cell: Cell)
    ensures { nodes.new ≡ put nodes.old n cell }
{
    if n < node_count(nodes) {
        let at = (n * NODE_WORDS) as usize;
        nodes[at] = cell.kind;
        nodes[at + 1] = cell.second;
        nodes[at + 2] = cell.third;
        nodes[at + 3] = cell.fourth;
        nodes[at + 4] = cell.fifth;
        nodes[at + 5] = cell.sixth;
    }
}

// The leaf that six words hold, and the fork.
impl From<Cell> for Leaf {
    ghost from_gives = { λ cell leaf. leaf ≡ leaf_words cell };

    fn from(cell: Cell) -> Leaf {
        Leaf {
            low: cell.second,
            high: cell.third,
        }
    }
}

impl From<Cell> for Fork {
    ghost from_gives = { λ cell fork. fork ≡ fork_words cell };

    fn from(cell: Cell) -> Fork {
        Fork {
            left: cell.second,
            right: cell.third,
            left_total: cell.fourth,
            left_ones: cell.fifth,
            balance: cell.sixth,
        }
    }
}

// What six words are laid out as.
impl From<Cell> for Node {
    ghost from_gives = { λ cell node. node ≡ node_of cell };

    fn from(cell: Cell) -> Node {
        let Cell {
            second,
            third,
            fourth,
            fifth,
            sixth,
            ..
        } = cell;
        match (Kind::try_from(cell.kind), third, fourth, fifth, sixth) {
            (Ok(Kind::Free), 0, 0, 0, 0) => Node::Free(second),
            (Ok(Kind::Leaf), _, 0, 0, 0) => Node::Leaf(cell.into()),
            (Ok(Kind::Fork), _, _, _, _) => Node::Fork(cell.into()),
            _ => Node::Broken,
        }
    }
}

pub fn node_at(nodes: &[u64], n: u64) -> Node
    ensures { result ≡ node_at nodes.now n }
{
    if n < node_count(nodes) {
        return cell_at(nodes, n).into();
    }
    Node::Broken
}

// The node at n, where that is a leaf or a fork whose left child has a mark. The word of a fork that counts those marks
// is 0 in a leaf: it tells the two apart, and no other word is tested.
pub fn leaf_or_fork(nodes: &[u64], n: u64) -> TreeNode
    requires { LeafOrFork (node_at nodes.now n) }
    ensures { as_node result ≡ node_at nodes.now n }
{
    let cell = cell_at(nodes, n);
    if cell.fourth == 0 {
        return TreeNode::Leaf(cell.into());
    }
    TreeNode::Fork(cell.into())
}

// The leaf at n, where one stands there. It and `fork_at` are two functions, since each asks for its kind of node,
// which one for both would have to be told.
pub fn leaf_at(nodes: &[u64], n: u64) -> Leaf
    requires { (l : Leaf) × (node_at nodes.now n ≡ Node.Leaf l) }
    ensures { result ≡ leaf_in (node_at nodes.now n) }
{
    cell_at(nodes, n).into()
}

// The fork at n, where one stands there.
pub fn fork_at(nodes: &[u64], n: u64) -> Fork
    requires { (f : Fork) × (node_at nodes.now n ≡ Node.Fork f) }
    ensures { result ≡ fork_in (node_at nodes.now n) }
{
    cell_at(nodes, n).into()
}

// The balance that the fork at n stores, and 0 where a leaf stands there.
pub fn balance_at(nodes: &[u64], n: u64) -> u64
    requires { OfTree (node_at nodes.now n) }
    ensures { result ≡ balance_in (node_at nodes.now n) }
{
    cell_at(nodes, n).sixth
}

// The number after n in the free chain, where a free node stands at n.
pub fn next_free(nodes: &[u64], n: u64) -> u64
    requires { (k : ℕ) × (node_at nodes.now n ≡ Node.Free k) }
    ensures { result ≡ next_in (nodes_in nodes.now) (node_at nodes.now n) }
{
    cell_at(nodes, n).second
}

// Puts a free node, a leaf or a fork at n, where there is such a node.
pub fn set_node<W: Words>(nodes: &mut [u64], n: u64, node: W)
    ensures { nodes.new ≡ put nodes.old n (W.cell node) }
{
    put_cell(nodes, n, node.words());
}

// Writes what the fork at n says of its left child: so many marks, so many of them strikes. Only these two words are
// written.
pub fn set_left(nodes: &mut [u64], n: u64, total: u64, ones: u64)
    requires { (f : Fork) × (node_at nodes.old n ≡ Node.Fork f) }
    ensures { (f : Fork) → node_at nodes.old n ≡ Node.Fork f
        → nodes.new ≡ put nodes.old n (fork_cell (with_left f total ones)) }
{
    let at = (n * NODE_WORDS) as usize;
    nodes[at + 3] = total;
    nodes[at + 4] = ones;
}

// Takes so many marks, so many of them strikes, off what the fork at n says of its left child.
pub fn less_left(nodes: &mut [u64], n: u64, total: u64, ones: u64)
    requires { (f : Fork) × (node_at nodes.old n ≡ Node.Fork f) × (total ≤ f.left_total)
        × (ones ≤ f.left_ones) }
    ensures { (f : Fork) → node_at nodes.old n ≡ Node.Fork f
        → nodes.new ≡ put nodes.old n (fork_cell (less_left f total ones)) }
{
    let fork = fork_at(nodes, n);
    set_left(nodes, n, fork.left_total - total, fork.left_ones - ones);
}

// Puts a copy of a tree's node at another number.
pub fn move_node(nodes: &mut [u64], from: u64, to: u64)
    requires { OfTree (node_at nodes.old «from») }
    ensures { nodes.new ≡ put_node nodes.old to (node_at nodes.old «from») }
{
    put_cell(nodes, to, cell_at(nodes, from));
}
