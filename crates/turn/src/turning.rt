// Turning a tree in place, and keeping it balanced. The top number stays the top, and the risen child's number takes
// the lowered node. Balances are signed here, and a height is told against another.
//
//     to the left:                            to the right:
//
//       n              n                          n            n
//      / \            / \                        / \          / \
//     A   b    →     b   E                      b   A   →    E   b
//        / \        / \                        / \              / \
//       C   E      A   C                      E   C            C   A
ghost use Rattle.std.specs.Prelude.{◌≡◌};
ghost use Rattle.model.specs.Tree.{Tree, numbers};
ghost use Rattle.pool.specs.Layout.{Edited};
ghost use Rattle.turn.specs.Apart.{Balances};
ghost use Rattle.turn.specs.Forks.{Heights, Risen, Rising};
ghost use Rattle.model.specs.Side.{side};
ghost use Rattle.turn.specs.Words.{Child, Evened, Moved, Turns, Uneven, leaning, turn, unturned};

use crate::balance::{above, seen, stored_from};
use pool::{Fork, balance_at, fork_at, set_node};

// The balances of the lowered and of the risen node after a turn, seen from A, and by how much the whole has grown in
// height.
#[derive(Clone, Copy)]
struct Turned {
    lowered: i64,
    risen: i64,
    change: i64,
}

// What a turn makes of the balances of the child b and of the top, seen from A. The heights are told against C's.
fn balances(child: i64, top: i64) -> Turned
    requires { Heights child top }
    ensures { (h : Heights child top) → Balances result h.a h.c h.e }
{
    let e = -child;
    let b = above(0, e);
    let a = b + top;
    let d = above(a, 0);
    Turned {
        lowered: a,
        risen: d - e,
        change: above(d, e) - above(a, b),
    }
}

// The lowered and the risen node after a turn, and by how much the whole has grown in height.
#[derive(Clone, Copy)]
struct Forks {
    lowered: Fork,
    risen: Fork,
    change: i64,
}

// What the two forks of a turn hold afterwards. A fork counts what its left child holds: after a turn to the left the
// risen one counts A and C together, and after one to the right the lowered one counts C without E.
fn new_forks(top: Fork, child: Fork, left: bool) -> Forks
    requires { Rising left top child }
    ensures { (t : Rising left top child) → Risen left result t.b t.a t.c t.e }
{
    let turned = balances(seen(child.balance, left), seen(top.balance, left));
    let lowered = stored_from(turned.lowered, left);
    let risen = stored_from(turned.risen, left);
    if left {
        return Forks {
            lowered: Fork {
                right: child.left,
                balance: lowered,
                ..top
            },
            risen: Fork {
                left: top.right,
                left_total: top.left_total + child.left_total,
                left_ones: top.left_ones + child.left_ones,
                balance: risen,
                ..child
            },
            change: turned.change,
        };
    }
    Forks {
        lowered: Fork {
            left: child.right,
            left_total: top.left_total - child.left_total,
            left_ones: top.left_ones - child.left_ones,
            balance: lowered,
            ..top
        },
        risen: Fork {
            right: top.left,
            balance: risen,
            ..child
        },
        change: turned.change,
    }
}

// The number of a fork's child on the other side.
fn far_child(fork: Fork, left: bool) -> u64
    ensures { result ≡ side left fork.right fork.left }
{
    if left {
        return fork.right;
    }
    fork.left
}

// Turns the tree at n to one side, and says by how much it has grown in height.
fn turn(nodes: &mut [u64], n: u64, left: bool) -> i64
    requires { Turns left nodes.old n }
    ensures { (t : Turns left nodes.old n)
        → Moved nodes.old nodes.new result (unturned left n t) (turn left (unturned left n t)) }
{
    let top = fork_at(nodes, n);
    let b = far_child(top, left);
    let child = fork_at(nodes, b);
    let forks = new_forks(top, child, left);
    set_node(nodes, b, forks.lowered);
    set_node(nodes, n, forks.risen);
    forks.change
}

// Turns a child on one side to that side where it leans to the other; a leaf does not lean. Its height stays.
fn lean(nodes: &mut [u64], n: u64, left: bool)
    requires { (t : Tree) × Child nodes.old n t }
    ensures { (t : Tree) → Child nodes.old n t
        → Edited nodes.old nodes.new (numbers t) (leaning left t) }
{
    if seen(balance_at(nodes, n), left) == -1 {
        turn(nodes, n, left);
    }
}

// Turns the fork at n where one child is two levels higher than the other, and says by how much it has grown in height.
pub fn rebalance(nodes: &mut [u64], n: u64) -> i64
    requires { (l : Tree) × ((r : Tree) × Uneven nodes.old n l r) }
    ensures { (l : Tree) (r : Tree) → Uneven nodes.old n l r
        → Evened nodes.old nodes.new result n l r }
{
    let fork = fork_at(nodes, n);
    match seen(fork.balance, true) {
        2 => {
            lean(nodes, fork.left, true);
            turn(nodes, n, false)
        }
        -2 => {
            lean(nodes, fork.right, false);
            turn(nodes, n, true)
        }
        _ => 0,
    }
}
