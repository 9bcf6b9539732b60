// The trailer: the six words after the nodes, which point back into them.
ghost use Rattle.std.specs.Prelude.{[], ◌∷◌, ◌≡◌, ◌≤◌, get_or, length};
ghost use Rattle.window.specs.Layout.{trailer_in};

use pool::Chain;
use tree::{Held, Root};

// The words of the trailer: the tree and its free chain, how many nodes, and a last one, which is zero.
#[derive(Clone, Copy, Debug, PartialEq, Eq, Hash)]
pub struct Trailer {
    pub held: Held,
    pub nodes: u64,
    pub last: u64,
}

// The trailer that stands in six words. They are read and put one by one, as they lie; a pattern of six would have to
// be told from slices of another length.
pub fn trailer_of(words: &[u64]) -> Trailer
    requires { length words.now ≡ 6 }
    ensures { result ≡ trailer_in words.now }
{
    Trailer {
        held: Held {
            tree: Root {
                node: words[0],
                length: words[1],
            },
            chain: Chain {
                first: words[2],
                count: words[3],
            },
        },
        nodes: words[4],
        last: words[5],
    }
}

// Puts a trailer into six words.
pub fn set_trailer(words: &mut [u64], trailer: Trailer)
    requires { length words.old ≡ 6 }
    ensures { words.new
        ≡ trailer.held.tree.node ∷ trailer.held.tree.length
        ∷ trailer.held.chain.first ∷ trailer.held.chain.count
        ∷ trailer.nodes ∷ trailer.last ∷ [] }
{
    words[0] = trailer.held.tree.node;
    words[1] = trailer.held.tree.length;
    words[2] = trailer.held.chain.first;
    words[3] = trailer.held.chain.count;
    words[4] = trailer.nodes;
    words[5] = trailer.last;
}
