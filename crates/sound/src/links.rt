// Whether a chain of free nodes stands in some node words. It ends, so that none of them can stand in it twice.
ghost use Rattle.pool.specs.Node.{nodes_in};
ghost use Rattle.model.specs.Says.{Says};
ghost use Rattle.sound.specs.Links.{Linked};

use pool::{Chain, Node, node_at, node_count};

// Whether the chain has so many free nodes, and then ends. Out of line its loop has the registers to itself; in line a
// check of a long chain took a tenth longer.
#[inline(never)]
pub fn chain_sound(nodes: &[u64], chain: Chain) -> bool
    ensures { Says
        (Linked nodes.now (nodes_in nodes.now) chain.first chain.count) result }
{
    let mut n = chain.first;
    for _ in 0..chain.count {
        let Node::Free(next) = node_at(nodes, n) else {
            return false;
        };
        n = next;
    }
    n == node_count(nodes)
}
