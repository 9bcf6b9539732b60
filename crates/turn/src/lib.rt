// Turns and balance, in place on the nodes of a pool. Nothing here knows a mark.
#![tactic(auto)]

mod balance;
mod changed;
mod turning;

pub use balance::stored;
pub use changed::child_changed;
pub use turning::rebalance;
