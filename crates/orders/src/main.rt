// The order program: plays a script from standard input on one pool, and writes its answers to standard output.
//
// Proved: the library's `script::play`, which writes each line, and that the loop goes on with the place and the nodes
// that a line leaves. Only run: that the bytes are read and handed on.
#![tactic(auto)]

ghost use Rattle.orders.specs.Loop.{Plays};

use octets::read_full;
use script::play;
use std::io;
use std::io::{ErrorKind, Write};

const MOST_WORDS: usize = 6144;

// One byte more than an input may have, so that a longer one is seen.
const INPUT: usize = 16385;

const LINE: usize = 17408;

// Plays the lines of an input one after the other, and writes what each prints. It stops at a line that is not written.
// Each line tells where the next one begins, and the loop goes by that place.
fn play_all<W: Write>(
    writer: &mut W,
    input: &[u8],
    pool: &mut [u64; MOST_WORDS],
    out: &mut [u8; LINE],
) -> io::Result<()>
    ensures { Plays input.now pool.old pool.new }
{
    let mut at = 0;
    let mut nodes = 0;
    while at < input.len() {
        let next = play(input, at, nodes, pool, out);
        writer.write_all(&out[..next.end])?;
        at = next.at;
        nodes = next.nodes;
    }
    Ok(())
}

// Where nobody reads any more the program has done its work, and says nothing of it.
fn main(rt: HostRuntime) -> io::Result<()> {
    let mut pool = [0u64; MOST_WORDS];
    let mut input = [0u8; INPUT];
    let mut out = [0u8; LINE];
    let length = read_full(&mut rt.stdin(), &mut input)?;
    match play_all(&mut rt.stdout(), &input[..length], &mut pool, &mut out) {
        Err(e) if e.kind() == ErrorKind::BrokenPipe => Ok(()),
        played => played,
    }
}
