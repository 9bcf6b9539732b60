// The nodes of a pool: six words each, read and written whole by their number, and the chain that the free ones form.
// Of a tree only the limits are known here, and nothing above computes an address. Nodes name each other by number and
// own nothing: there is no heap, and their words are a host's.
#![tactic(auto)]

mod chain;
mod limits;
mod node;

pub use chain::Chain;
pub use limits::{LEAF_LEAST, LEVELS, MOST_NODES, NODE_WORDS, SPLIT_NODES};
pub use node::{
    Cell, Fork, Free, Node, TreeNode, Words, balance_at, fork_at, leaf_at, leaf_or_fork, less_left,
    move_node, next_free, node_at, node_count, set_left, set_node,
};
