// Answers requests on standard input by the calls of `window`, so that the answers can be held to the published Rust's.
// Requests and answers are words, each eight bytes, low byte first. A request is nine words and two lists:
//
//     size, fill        the pool's words, at most 6,150, and what stands in each of them, and of the output, before
//     count, length     the words that are built from, at most 520, and the length
//     orders            how many, at most 4,096
//     room              the output's words, at most 520
//     at, word          after the orders the pool's word at `at`, where there is one, is set to `word`
//     shown             how many of the pool's words are told, at most 6,150
//     the words, and three words for each order
//
// The answer is the code and the value of build, run, check and values, in this order; two words for each order, all
// ones where run refused; the words of the output; and those of the pool that are shown. The program stops at the end
// of the input, at a part of a request, or at one with a number above its limit.
//
// Proved: the program is safe and ends. That it hands on what the library answers is not proved, but run. The files
// stdin and stdout beside src/ are what `window_vectors sample stdin stdout` of the folder oracle makes.
#![tactic(auto)]

ghost use Rattle.std.specs.Prelude.{◌+◌, ◌≤◌, length};

mod request;
mod words;

use order::{ANSWER_WORDS, ORDER_WORDS, TwoWords};
use request::{AboveLimit, MOST_ORDERS, MOST_POOL, MOST_WORDS, Request};
use std::io;
use std::io::{ErrorKind, Read, Write};
use words::{Bytes, put_words, read_words};

// The words of the most orders, and of their answers.
const ORDERS: usize = ORDER_WORDS * MOST_ORDERS;

const REPLIES: usize = ANSWER_WORDS * MOST_ORDERS;

// The words of a request's lists, and of an answer, at most.
const LISTS: usize = MOST_WORDS + ORDERS;

const TOLD: usize = CALLS + REPLIES + MOST_WORDS + MOST_POOL;

// The words of what the four calls answer.
const CALLS: usize = 4 * ANSWER_WORDS;

// Why no more requests are answered.
#[derive(Drop)]
enum Stop {
    // The input has ended, or ended in a request, or a request is above the limits.
    Ended,
    Failed(io::Error),
}

impl From<io::Error> for Stop {
    fn from(e: io::Error) -> Stop {
        if e.kind() == ErrorKind::UnexpectedEof {
            return Stop::Ended;
        }
        Stop::Failed(e)
    }
}

impl From<AboveLimit> for Stop {
    fn from(_above: AboveLimit) -> Stop {
        Stop::Ended
    }
}

// Serves a request on lists of the sizes that it names, and as many of the pool's words, and gives the code and the
// value of each call.
fn serve(
    request: &Request,
    pool: &mut [u64],
    words: &[u64],
    orders: &[u64],
    replies: &mut [u64],
    out: &mut [u64],
) -> [[u64; ANSWER_WORDS]; 4]
    requires { request.now.size ≤ length pool.old }
{
    let pool = &mut pool[..request.size];
    let built = window::build(pool, words, request.length);
    let ran = run::run(pool, orders, replies);
    if let Some(word) = pool.get_mut(request.at as usize) {
        *word = request.word;
    }
    let checked = window::check(pool);
    let valued = window::values(pool, out);
    [built, ran, checked, valued].map(|answer| {
        let words = TwoWords::from(answer);
        [words.code, words.value]
    })
}

// Writes an answer, by way of the bytes that are lent: all of it at once, as far as the output takes it. Its parts come
// one by one, as they stand in arrays of their own. The clause leaves room for the words of the calls.
fn write_answer<W: Write>(
    writer: &mut W,
    told: &mut [Bytes; TOLD],
    calls: [[u64; ANSWER_WORDS]; 4],
    replies: &[u64],
    out: &[u64],
    pool: &[u64],
) -> io::Result<()>
    requires { length replies.now + length out.now + length pool.now ≤ 14862 }
{
    let (head, rest) = told.split_at_mut(CALLS);
    put_words(head, calls.as_flattened());
    let (first, rest) = rest.split_at_mut(replies.len());
    put_words(first, replies);
    let (second, rest) = rest.split_at_mut(out.len());
    put_words(second, out);
    put_words(rest, pool);
    let end = CALLS + replies.len() + out.len() + pool.len();
    writer.write_all(told[..end].as_flattened())
}

// Reads a request, serves it and writes the answer.
fn answer_next<R: Read, W: Write>(reader: &mut R, writer: &mut W) -> Result<(), Stop> {
    let mut head = [[0; 8]; 9];
    reader.read_exact(head.as_flattened_mut())?;
    let request = Request::try_from(head.map(u64::from_le_bytes))?;
    let mut bytes: [Bytes; TOLD] = [[0; 8]; TOLD];
    let mut lists = [0; LISTS];
    let lists = &mut lists[..request.count + ORDER_WORDS * request.orders];
    read_words(reader, &mut bytes, lists)?;
    let (words, orders) = lists.split_at(request.count);
    let mut replies = [u64::MAX; REPLIES];
    let replies = &mut replies[..ANSWER_WORDS * request.orders];
    let mut out = [request.fill; MOST_WORDS];
    let out = &mut out[..request.room];
    let mut pool = [request.fill; MOST_POOL];
    let calls = serve(&request, &mut pool, words, orders, replies, out);
    write_answer(
        writer,
        &mut bytes,
        calls,
        replies,
        out,
        &pool[..request.shown],
    )?;
    Ok(())
}

// A loop has to end, and nothing says that the input does. So the rounds are counted, to a number that no run uses up.
// The loop of bits_replay ends for other reasons, so the two stand apart.
fn main(rt: HostRuntime) -> io::Result<()> {
    let mut stdin = rt.stdin();
    let mut stdout = rt.stdout();
    for _ in 0..u64::MAX {
        match answer_next(&mut stdin, &mut stdout) {
            Ok(()) => {}
            Err(Stop::Ended) => break,
            Err(Stop::Failed(e)) => return Err(e),
        }
    }
    Ok(())
}
