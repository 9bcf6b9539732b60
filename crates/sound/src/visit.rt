// Whether a tree stands in some node words from a number down: of so many marks, so many of them strikes, and so many
// levels. All of it is claimed from above, so that a leaf compares and a fork hands the claims of its children down.
// Every node is met at most once and no more of them than there is room for, so the visit ends whatever stands there.
ghost use Rattle.std.specs.Prelude.{◌≡◌, ◌-◌, ◌<◌, ◌≤◌, max};
ghost use Rattle.model.specs.Says.{Says};
ghost use Rattle.bits.specs.Leaf.{leaf_of};
ghost use Rattle.sound.specs.Part.{Agrees, Filled, Visited, held, left_claim, most_levels, right_claim};

use crate::met::Met;
use bits::{BLOCK_BITS, Leaf};
use pool::{Fork, LEAF_LEAST, Node, node_at};

// No leaf holds more marks than this.
const LEAF_MOST: u64 = 127;

// The greatest balance as stored, one level to the right.
pub const MOST_BALANCE: u64 = 3;

// What is claimed of the subtree at `root`: its marks, how many of them are strikes, how many its last leaf holds at
// least, and its levels.
#[derive(Clone, Copy, Debug, PartialEq, Eq, Hash)]
pub struct Claim {
    pub root: u64,
    pub total: u64,
    pub ones: u64,
    pub least: u64,
    pub levels: u64,
}

impl Claim {
    // What is then claimed of a fork's left child, and of its right one.
    fn left(self, fork: Fork) -> Claim
        requires { Agrees fork self.total self.ones self.levels }
        ensures { result ≡ left_claim self fork }
    {
        Claim {
            root: fork.left,
            total: fork.left_total,
            ones: fork.left_ones,
            least: LEAF_LEAST,
            levels: below(self.levels, fork.balance - 1),
        }
    }

    fn right(self, fork: Fork) -> Claim
        requires { Agrees fork self.total self.ones self.levels }
        ensures { result ≡ right_claim self fork }
    {
        Claim {
            root: fork.right,
            total: self.total - fork.left_total,
            ones: self.ones - fork.left_ones,
            levels: below(self.levels, MOST_BALANCE - fork.balance),
            ..self
        }
    }
}

// Whether a leaf has no bit past so many marks.
fn ends_at(leaf: Leaf, total: u64) -> bool
    ensures { Says (leaf ≡ leaf_of (held leaf total)) result }
{
    leaf.join(total, Leaf::EMPTY) == leaf
}

// Whether a leaf of so many marks and strikes is full enough, not too full, and has no bit past them; it is one level.
fn leaf_fits(leaf: Leaf, claim: Claim) -> bool
    ensures { Says (Filled leaf claim.total claim.ones claim.least claim.levels) result }
{
    claim.levels == 1
        && claim.least <= claim.total
        && claim.total <= LEAF_MOST
        && ends_at(leaf, claim.total)
        && leaf.count_before(BLOCK_BITS, true) == claim.ones
}

// Whether a fork has levels below it, a balance, and no more on its left than is claimed of it.
pub fn fork_fits(fork: Fork, total: u64, ones: u64, levels: u64) -> bool
    ensures { Says (Agrees fork total ones levels) result }
{
    2 <= levels
        && 1 <= fork.balance
        && fork.balance <= MOST_BALANCE
        && fork.left_total <= total
        && fork.left_ones <= ones
}

// The levels of a fork's child: two fewer where the fork leans two away from it, and one fewer elsewhere.
pub fn below(levels: u64, lean: u64) -> u64
    requires { (2 ≤ levels) × (lean ≤ 2) }
    ensures { result ≡ levels - max 1 lean }
{
    levels - lean.max(1)
}

// Visits the leaf of which all this is claimed, as `visit` does a subtree. It stands where a tree of at most one level
// is claimed.
fn visit_leaf(nodes: &[u64], met: &mut Met, claim: Claim) -> bool
    requires { claim.levels < 2 }
    ensures { Visited nodes.now met.old met.new claim result }
{
    if !met.meet(claim.root) {
        return false;
    }
    let Node::Leaf(leaf) = node_at(nodes, claim.root) else {
        return false;
    };
    leaf_fits(leaf, claim)
}

// Visits the subtree of which all this is claimed, and says whether it stands there; it has no more nodes than there is
// room for. A leaf is no call of its own: where one level is claimed it is visited in place.
pub fn visit(nodes: &[u64], met: &mut Met, whole: Claim) -> bool
    requires { whole.levels ≤ most_levels }
    ensures { Visited nodes.now met.old met.new whole result }
{
    let mut claim = whole;
    while claim.levels > 1 {
        if !met.meet(claim.root) {
            return false;
        }
        let Node::Fork(fork) = node_at(nodes, claim.root) else {
            return false;
        };
        if !fork_fits(fork, claim.total, claim.ones, claim.levels) {
            return false;
        }
        let left = claim.left(fork);
        let stands = if left.levels < 2 {
            visit_leaf(nodes, met, left)
        } else {
            visit(nodes, met, left)
        };
        if !stands {
            return false;
        }
        claim = claim.right(fork);
    }
    visit_leaf(nodes, met, claim)
}
