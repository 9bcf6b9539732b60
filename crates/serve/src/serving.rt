// One order on a tree: its own tests in their sequence, and then the tree is asked or edited. An order that is
// refused changes no node.
ghost use Rattle.std.specs.Prelude.{◌≡◌, ℕ};
ghost use Rattle.model.specs.Limits.{levels};
ghost use Rattle.model.specs.Pool.{Pool};
ghost use Rattle.model.specs.Tree.{marks};
ghost use Rattle.order.specs.Asked.{accessing, asked_by, inserting, quiet, ranking, removing, selecting};
ghost use Rattle.order.specs.Plain.{list_answer};
ghost use Rattle.tree.specs.TreeAt.{TreeAt};
ghost use Rattle.serve.specs.Serving.{Serves, ToServe};

use order::{Answer, ORDER_WORDS, Order, Refusal};
use tree::{Held, Root};

// What an order is answered, and the tree and the chain as they are afterwards. The root stays.
#[derive(Clone, Copy, Debug, PartialEq, Eq, Hash)]
pub struct Served {
    pub answer: Answer,
    pub held: Held,
}

// An answer that leaves the tree as it is.
fn unmoved(held: Held, answer: Answer) -> Served
    ensures { result ≡ record { answer = answer; held = held } }
{
    Served { answer, held }
}

// Puts a mark in at a place; a leaf splits only where two nodes may be taken. What an edit asks has one name here and
// below, `ToServe`.
fn insert_at(nodes: &mut [u64], held: Held, may: bool, index: u64, bit: bool) -> Served
    requires { (end : ℕ) × (p : Pool) × ToServe nodes.old end held may p }
    ensures { (end : ℕ) (p : Pool) → ToServe nodes.old end held may p
        → Serves nodes.old nodes.new end may (inserting index bit) p result }
{
    if held.tree.length < index {
        return unmoved(held, Err(Refusal::OutOfRange));
    }
    if grow::room(nodes, held.tree, may, index) {
        let chain = grow::insert(nodes, held, index, bit);
        let tree = Root {
            length: held.tree.length + 1,
            ..held.tree
        };
        return Served {
            answer: Ok(0),
            held: Held { tree, chain },
        };
    }
    unmoved(held, Err(Refusal::Full))
}

// Takes the mark at a place out.
fn remove_at(nodes: &mut [u64], held: Held, may: bool, index: u64) -> Served
    requires { (end : ℕ) × (p : Pool) × ToServe nodes.old end held may p }
    ensures { (end : ℕ) (p : Pool) → ToServe nodes.old end held may p
        → Serves nodes.old nodes.new end may (removing index) p result }
{
    if held.tree.length <= index {
        return unmoved(held, Err(Refusal::OutOfRange));
    }
    let removed = shrink::remove(nodes, held, index);
    let tree = Root {
        length: held.tree.length - 1,
        ..held.tree
    };
    Served {
        answer: Ok(removed.bit as u64),
        held: Held {
            tree,
            chain: removed.chain,
        },
    }
}

// The mark at a place.
fn access_at(nodes: &[u64], tree: Root, index: u64) -> Answer
    requires { TreeAt nodes.now tree levels }
    ensures { (s : TreeAt nodes.now tree levels) → result ≡ list_answer (accessing index) (marks s.tree) }
{
    if tree.length <= index {
        return Err(Refusal::OutOfRange);
    }
    Ok(tree.access(nodes, index) as u64)
}

// How many marks of a kind stand before a place.
fn rank_at(nodes: &[u64], tree: Root, place: u64, bit: bool) -> Answer
    requires { TreeAt nodes.now tree levels }
    ensures { (s : TreeAt nodes.now tree levels) → result ≡ list_answer (ranking place bit) (marks s.tree) }
{
    if tree.length < place {
        return Err(Refusal::OutOfRange);
    }
    Ok(tree.rank(nodes, place, bit))
}

// The place of the k-th mark of a kind.
fn select_at(nodes: &[u64], tree: Root, k: u64, bit: bool) -> Answer
    requires { TreeAt nodes.now tree levels }
    ensures { (s : TreeAt nodes.now tree levels) → result ≡ list_answer (selecting k bit) (marks s.tree) }
{
    if k == 0 {
        return Err(Refusal::NoZeroth);
    }
    tree.select(nodes, bit, k).ok_or(Refusal::TooFew)
}

// Most quiet frames between two neighbouring strikes.
fn quiet_of(nodes: &[u64], tree: Root) -> Answer
    requires { TreeAt nodes.now tree levels }
    ensures { (s : TreeAt nodes.now tree levels) → result ≡ list_answer quiet (marks s.tree) }
{
    Ok(quiet::longest_quiet(nodes, tree))
}

// Serves the order of three words.
pub fn serve(nodes: &mut [u64], held: Held, may: bool, order: [u64; ORDER_WORDS]) -> Served
    requires { (end : ℕ) × (p : Pool) × ToServe nodes.old end held may p }
    ensures { (end : ℕ) (p : Pool) → ToServe nodes.old end held may p
        → Serves nodes.old nodes.new end may (asked_by order) p result }
{
    match Order::try_from(order) {
        Ok(Order::Insert(index, bit)) => insert_at(nodes, held, may, index, bit),
        Ok(Order::Remove(index)) => remove_at(nodes, held, may, index),
        Ok(Order::Access(index)) => unmoved(held, access_at(nodes, held.tree, index)),
        Ok(Order::Rank(end, bit)) => unmoved(held, rank_at(nodes, held.tree, end, bit)),
        Ok(Order::Select(k, bit)) => unmoved(held, select_at(nodes, held.tree, k, bit)),
        Ok(Order::Quiet) => unmoved(held, quiet_of(nodes, held.tree)),
        Err(refusal) => unmoved(held, Err(refusal)),
    }
}
