// A child of a fork has changed its height: the fork's balance is set right, and the fork is turned where it leans too
// far.
ghost use Rattle.std.specs.Prelude.{◌≡◌, ℕ};
ghost use Rattle.model.specs.Tree.{Tree, height};
ghost use Rattle.turn.specs.Apart.{Apart};
ghost use Rattle.model.specs.Side.{side};
ghost use Rattle.turn.specs.Sites.{Leveled, Stale, with_balance};

use crate::balance::{above, seen, stored_from};
use crate::turning::rebalance;
use pool::{Fork, fork_at, set_node};

fn with_balance(fork: Fork, balance: u64) -> Fork
    ensures { result ≡ with_balance fork balance }
{
    Fork { balance, ..fork }
}

// A child of the fork at n, the left one or not, has grown in height by `change`. Sets the fork's balance right and
// balances it again; says by how much the fork has grown.
pub fn child_changed(nodes: &mut [u64], n: u64, left: bool, change: i64) -> i64
    requires { (l : Tree) × (r : Tree) × (was : ℕ) × Stale nodes.old n left was l r
        × Apart change (height (side left l r)) was }
    ensures { (l : Tree) (r : Tree) (was : ℕ) → Stale nodes.old n left was l r
        → Apart change (height (side left l r)) was
        → Leveled nodes.old nodes.new n left was l r result }
{
    let fork = fork_at(nodes, n);
    let before = seen(fork.balance, left);
    let after = before + change;
    set_node(nodes, n, with_balance(fork, stored_from(after, left)));
    let grown = above(after, 0) - above(before, 0);
    grown + rebalance(nodes, n)
}
