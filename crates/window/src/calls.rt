// The calls, each with its tests in their sequence. A refusal leaves every lent word as it was.
ghost use Rattle.std.specs.Prelude.{◌*◌, ◌<◌};
ghost use Rattle.std.proofs.Math.ListN as ListN;
ghost use Rattle.model.specs.Says.{Says};
ghost use Rattle.window.specs.Calls.{BuildsTo, Checked, Judges, Measures, Valued};
ghost use Rattle.window.specs.Layout.{Counted};

use crate::trailer::{Trailer, set_trailer, trailer_of};
use bits::WORD_BITS;
use order::{Answer, Refusal};
use pool::MOST_NODES;
use sound::sound;
use values::words_for;

// The words of a node, and of the trailer.
pub const NODE_WORDS: usize = pool::NODE_WORDS as usize;

// The fewest and the most words of a pool. Its nodes are named by number and not owned by one another: there is no
// heap, and a host lends the words and reads them.
const LEAST_WORDS: usize = 2 * NODE_WORDS;

const MOST_WORDS: usize = (MOST_NODES as usize + 1) * NODE_WORDS;

// How many nodes a pool of these words has.
pub fn nodes_of(pool: &[u64]) -> Result<usize, Refusal>
    ensures { Measures pool.now result }
{
    let words = pool.len();
    if words < LEAST_WORDS || MOST_WORDS < words || words % NODE_WORDS != 0 {
        return Err(Refusal::WrongSize);
    }
    Ok(words / NODE_WORDS - 1)
}

// The trailer of the pool of n nodes that stands in these words.
pub fn judged(pool: &[u64], n: usize) -> Result<Trailer, Refusal>
    requires { Counted pool.now n }
    ensures { Judges pool.now n result }
{
    let (nodes, last) = pool.split_at(n * NODE_WORDS);
    let trailer = trailer_of(last);
    if trailer.nodes != n as u64 || trailer.last != 0 {
        return Err(Refusal::NotSound);
    }
    let held = trailer.held;
    if !sound(nodes, held.tree.node, held.tree.length, held.chain) {
        return Err(Refusal::NotSound);
    }
    Ok(trailer)
}

// Whether a pool is well-formed; beside 0 its length.
pub fn check(pool: &[u64]) -> Answer
    ensures { Checked pool.now result }
{
    let n = nodes_of(pool)?;
    let trailer = judged(pool, n)?;
    Ok(trailer.held.tree.length)
}

// Writes the marks out as words; beside 0 how many.
pub fn values(pool: &[u64], out: &mut [u64]) -> Answer
    ensures { Valued pool.now out.old result out.new }
{
    let n = nodes_of(pool)?;
    let trailer = judged(pool, n)?;
    let words = words_for(trailer.held.tree.length);
    if (out.len() as u64) < words {
        return Err(Refusal::ShortOutput);
    }
    values::values(&pool[..n * NODE_WORDS], trailer.held.tree, out);
    Ok(words)
}

// Whether some words have fewer than so many bits.
fn too_few(words: &[u64], length: u64) -> bool
    ensures { Says (64 * ListN.length words.now < length) result }
{
    (words.len() as u64) < length.div_ceil(WORD_BITS)
}

// Overwrites any pool with one built from the first marks of some words; beside 0 the length.
pub fn build(pool: &mut [u64], words: &[u64], length: u64) -> Answer
    ensures { BuildsTo pool.old words.now length result pool.new }
{
    let n = nodes_of(pool)?;
    if too_few(words, length) {
        return Err(Refusal::TooLong);
    }
    if (n as u64 + 1) / 2 < build::leaf_count(length) {
        return Err(Refusal::Full);
    }
    let (nodes, last) = pool.split_at_mut(n * NODE_WORDS);
    let trailer = Trailer {
        held: build::build(nodes, words, length),
        nodes: n as u64,
        last: 0,
    };
    set_trailer(last, trailer);
    Ok(length)
}
