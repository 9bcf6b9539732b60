// Answers requests on standard input by the libraries `bits` and `select`, so that their answers can be held to the
// published Rust's. A request is six words, the operation and five arguments, and its answer four words; a word is
// eight bytes, low byte first, and what is not used is 0. It stops at the end of the input, or at a part of a request.
// The files stdin and stdout beside src/ are what `bits_vectors sample stdin stdout` of the folder oracle makes.
//
// Proved: that it is safe and ends, and the libraries that it calls. Only run: that it hands on what they answer.
#![tactic(auto)]

use bits::Leaf;
use octets::read_full;
use std::io;
use std::io::{Read, Write};

// As many requests as are read before their answers are written.
const BATCH: usize = 1024;

// The words of a request, and of its answer.
const ASKED: usize = 6;

const TOLD: usize = 4;

// The bytes of a word.
type Bytes = [u8; 8];

#[derive(Clone, Copy)]
struct Answer([u64; TOLD]);

// Whether there is a place, and the place.
impl From<Option<u64>> for Answer {
    fn from(place: Option<u64>) -> Answer {
        match place {
            Some(at) => Answer([1, at, 0, 0]),
            None => Answer([0; 4]),
        }
    }
}

impl From<Leaf> for Answer {
    fn from(leaf: Leaf) -> Answer {
        Answer([leaf.low, leaf.high, 0, 0])
    }
}

impl From<(Leaf, Leaf)> for Answer {
    fn from((left, right): (Leaf, Leaf)) -> Answer {
        Answer([left.low, left.high, right.low, right.high])
    }
}

impl From<u64> for Answer {
    fn from(number: u64) -> Answer {
        Answer([number, 0, 0, 0])
    }
}

impl From<bool> for Answer {
    fn from(bit: bool) -> Answer {
        Answer::from(u64::from(bit))
    }
}

// The arguments of each operation, and its answer. A bit is set by any word but 0, and of a word of 32 bits the upper
// half is not looked at.
//
//     1 select32        word, bit, k                               1 and the place, or 0
//     2 select64        word, bit, k                               1 and the place, or 0
//     3 select128       low, high, bit, k                          1 and the place, or 0
//     4 insert          low, high, at, bit                         low, high
//     5 remove          low, high, at                              low, high
//     6 join            low, high, len, other low, other high      low, high
//     7 split           low, high                                  left low, left high, right low, right high
//     8 count_before    low, high, end, bit                        count
//     9 bit_at          low, high, at                              bit
//     any other                                                    four words of all ones
//
// The numbers are the request's own and go no further than this match, so no enum of them stands between.
fn answered(request: [u64; ASKED]) -> Answer {
    let [operation, a, b, c, d, e] = request;
    let leaf = Leaf { low: a, high: b };
    match operation {
        1 => select::select_word((a & 0xffff_ffff) as u32, b != 0, c).into(),
        2 => select::select_word(a, b != 0, c).into(),
        3 => select::select128(a, b, c != 0, d).into(),
        4 => leaf.insert(c, d != 0).into(),
        5 => leaf.remove(c).into(),
        6 => leaf.join(c, Leaf { low: d, high: e }).into(),
        7 => leaf.split().into(),
        8 => leaf.count_before(c, d != 0).into(),
        9 => leaf.bit_at(c).into(),
        _ => Answer([u64::MAX; 4]),
    }
}

// Reads what fits, answers each whole request of it, and says whether more may follow.
fn next<R: Read, W: Write>(reader: &mut R, writer: &mut W) -> io::Result<bool> {
    let mut asked: [[Bytes; ASKED]; BATCH] = [[[0; 8]; ASKED]; BATCH];
    let mut told: [[Bytes; TOLD]; BATCH] = [[[0; 8]; TOLD]; BATCH];
    let got = read_full(reader, asked.as_flattened_mut().as_flattened_mut())?;
    let whole = got / (8 * ASKED);
    for (request, answer) in asked[..whole].iter().zip(&mut told) {
        let Answer(words) = answered(request.map(u64::from_le_bytes));
        *answer = words.map(u64::to_le_bytes);
    }
    writer.write_all(told[..whole].as_flattened().as_flattened())?;
    Ok(whole == BATCH)
}

// A loop has to end, and nothing says that the input does. So the rounds are counted, to a number that no run uses up.
// The loop of window_replay ends for other reasons, so the two stand apart.
fn main(rt: HostRuntime) -> io::Result<()> {
    let mut stdin = rt.stdin();
    let mut stdout = rt.stdout();
    for _ in 0..u64::MAX {
        if !next(&mut stdin, &mut stdout)? {
            break;
        }
    }
    Ok(())
}
