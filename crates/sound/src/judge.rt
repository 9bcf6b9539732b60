// Whether a sound pool stands in some node words. The tree is visited from the root, no node twice; then the free chain
// is followed, and between them they have to have every node.
ghost use Rattle.std.specs.Prelude.{◌≡◌, ◌*◌, ◌≤◌, length as size};
ghost use Rattle.model.specs.Limits.{most_nodes};
ghost use Rattle.pool.specs.Node.{node_words, nodes_in};
ghost use Rattle.sound.specs.Judged.{Judged};

use crate::edge::{least_of, right_edge};
use crate::links::chain_sound;
use crate::met::Met;
use crate::visit::{Claim, visit};
use pool::{Chain, node_count};

// Whether a sound pool stands in these words, with this root, this many marks and this chain. The three come apart,
// since this crate stands beside `tree`, whose `Held` has them together.
pub fn sound(nodes: &[u64], root: u64, length: u64, chain: Chain) -> bool
    requires { (size nodes.now ≡ nodes_in nodes.now * node_words) × (nodes_in nodes.now ≤ most_nodes) }
    ensures { Judged nodes.now root length chain result }
{
    let Some(room) = node_count(nodes).checked_sub(chain.count) else {
        return false;
    };
    let Some(edge) = right_edge(nodes, root, length) else {
        return false;
    };
    let mut met = Met::none(room);
    let claim = Claim {
        root,
        total: length,
        ones: edge.ones,
        least: least_of(edge.levels),
        levels: edge.levels,
    };
    visit(nodes, &mut met, claim) && met.room == 0 && chain_sound(nodes, chain)
}
