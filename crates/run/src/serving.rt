// One order on a pool that stands, between reading its trailer and writing it again.
ghost use Rattle.model.specs.Pool.{Pool};
ghost use Rattle.order.specs.Asked.{asked_by};
ghost use Rattle.window.specs.Layout.{Stands};
ghost use Rattle.run.specs.Orders.{Served};

use order::{Answer, ORDER_WORDS};
use pool::SPLIT_NODES;
use serve::serve;
use window::{NODE_WORDS, Trailer, set_trailer, trailer_of};

// Serves one order. Only an insert and a remove that are carried out change how many marks there are, and the trailer
// is written only then. The number of nodes is told beside the words, since it was found when they were measured.
pub fn served(pool: &mut [u64], n: usize, order: [u64; ORDER_WORDS]) -> Answer
    requires { (p : Pool) × Stands pool.old n p }
    ensures { (p : Pool) → Stands pool.old n p
        → Served pool.new n (asked_by order) p result }
{
    let (nodes, last) = pool.split_at_mut(n * NODE_WORDS);
    let trailer = trailer_of(last);
    // in a window two nodes may be taken where two are free
    let may = SPLIT_NODES <= trailer.held.chain.count;
    let done = serve(nodes, trailer.held, may, order);
    if done.held.tree.length != trailer.held.tree.length {
        let now = Trailer {
            held: done.held,
            ..trailer
        };
        set_trailer(last, now);
    }
    done.answer
}
