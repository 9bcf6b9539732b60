// A window in a pool of words: the trailer behind the nodes, and the calls check, build and values. Whoever serves
// orders on it reads and writes the trailer here.
#![tactic(auto)]

mod calls;
mod trailer;

pub use calls::{NODE_WORDS, build, check, judged, nodes_of, values};
pub use trailer::{Trailer, set_trailer, trailer_of};
