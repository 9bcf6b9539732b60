// A script is played line by line on one pool. `nodes` says how many nodes the pool in use has; any number that no pool
// has says that there is none, as the contract of `play` has it (LinePlayed).
//
// The pool, its nodes and the bytes are lent one by one: two `&mut` in one struct would ask twice the clauses in each
// method.
ghost use Rattle.std.specs.Prelude.{◌≡◌, ◌≤◌, ◌<◌, length, take, drop, Some};
ghost use Rattle.grammar.specs.Lines.{dumping, loading, ordering, pooling, wanted};
ghost use Rattle.order.specs.Asked.{asked_of};
ghost use Rattle.script.specs.Playing.{Plays, LinePlayed, after_line, desk};
ghost use Rattle.script.specs.Playing.{first_line as Playing·first_line, pool_extent};

use crate::telling::tell;
use grammar::{Line, Load, read};
use order::{ANSWER_WORDS, ORDER_WORDS, Order, Refusal, TwoWords};
use pool::MOST_NODES;
use text::{NEWLINE, find};
use window::NODE_WORDS;

const MOST_INPUT: usize = 16384;

// Where the next line begins, how many nodes the pool has now, and how many bytes were written; LinePlayed speaks of
// all three.
#[derive(Clone, Copy, Debug, PartialEq, Eq, Hash)]
pub struct Next {
    pub at: usize,
    pub nodes: u64,
    pub end: usize,
}

// How many words a pool of so many nodes has.
fn extent(nodes: u64) -> Option<usize>
    ensures { result ≡ pool_extent nodes }
{
    match nodes {
        1..=MOST_NODES => Some((nodes as usize + 1) * NODE_WORDS),
        _ => None,
    }
}

// Begins an empty pool of n nodes; a refusal keeps the old one.
fn begin(pool: &mut [u64; 6144], nodes: &mut u64, n: u64, out: &mut [u8; 17408]) -> usize
    ensures { Plays (Some (pooling n)) (desk pool.old nodes.old out.old)
        (desk pool.new nodes.new out.new) result }
{
    let Some(end) = extent(n) else {
        return tell(out, TwoWords::from(Err(Refusal::WrongSize)), &[]);
    };
    // every pool has room for no marks, so this is not refused
    let _ = window::build(&mut pool[..end], &[], 0);
    *nodes = n;
    tell(out, TwoWords::from(Ok(n)), &[])
}

// Builds the pool in use from the first words. Here and below, no pool in use is a pool of no words, which every call
// refuses.
fn load(
    pool: &mut [u64; 6144],
    nodes: u64,
    load: Load,
    words: &[u64],
    out: &mut [u8; 17408],
) -> usize
    requires { load.count ≤ length words.now }
    ensures { Plays (Some (loading load.length (take load.count words.now)))
        (desk pool.old nodes out.old)
        (desk pool.new nodes out.new) result }
{
    let end = extent(nodes).unwrap_or(0);
    let built = window::build(&mut pool[..end], &words[..load.count], load.length);
    tell(out, TwoWords::from(built), &[])
}

// Serves one order on the pool in use.
fn serve(pool: &mut [u64; 6144], nodes: u64, order: Order, out: &mut [u8; 17408]) -> usize
    ensures { Plays (Some (ordering (asked_of order))) (desk pool.old nodes out.old)
        (desk pool.new nodes out.new) result }
{
    let end = extent(nodes).unwrap_or(0);
    let list = <[u64; ORDER_WORDS]>::from(order);
    let mut answer = [0u64; ANSWER_WORDS];
    match run::run(&mut pool[..end], &list, &mut answer) {
        Ok(_) => {
            let [code, value] = answer;
            tell(out, TwoWords { code, value }, &[])
        }
        Err(refusal) => tell(out, TwoWords::from(Err(refusal)), &[]),
    }
}

// The length of the pool in use, and its marks as words.
fn dump(pool: &[u64; 6144], nodes: u64, words: &mut [u64], out: &mut [u8; 17408]) -> usize
    requires { 1024 ≤ length words.old }
    ensures { Plays (Some dumping) (desk pool.now nodes out.old)
        (desk pool.now nodes out.new) result }
{
    let end = extent(nodes).unwrap_or(0);
    let checked = window::check(&pool[..end]);
    let count = window::values(&pool[..end], words).unwrap_or(0) as usize;
    tell(out, TwoWords::from(checked), &words[..count])
}

// Plays one line.
fn play_line(line: &[u8], pool: &mut [u64; 6144], nodes: &mut u64, out: &mut [u8; 17408]) -> usize
    requires { length line.now ≤ 16384 }
    ensures { Plays (wanted line.now) (desk pool.old nodes.old out.old)
        (desk pool.new nodes.new out.new) result }
{
    let mut words = [0u64; 1024];
    match read(line, &mut words) {
        None => tell(out, TwoWords::from(Err(Refusal::Malformed)), &[]),
        Some(Line::Pool(n)) => begin(pool, nodes, n, out),
        Some(Line::Load(asked)) => load(pool, *nodes, asked, &words, out),
        Some(Line::Order(order)) => serve(pool, *nodes, order, out),
        Some(Line::Dump) => dump(pool, *nodes, &mut words, out),
    }
}

// The first line, and where the next one begins.
fn first_line(input: &[u8]) -> (&[u8], usize)
    ensures line { result.0.now ≡ Playing·first_line input.now }
    ensures rest { drop result.1 input.now ≡ after_line input.now }
    ensures goes_on { 0 < length input.now → 0 < result.1 }
    ensures within { (length result.0.now ≤ length input.now) × (result.1 ≤ length input.now) }
{
    match find(input, NEWLINE) {
        Some(end) => (&input[..end], end + 1),
        None => (input, input.len()),
    }
}

// Plays the line of an input that begins at a place; an input that is too long is answered as one line.
pub fn play(
    input: &[u8],
    at: usize,
    nodes: u64,
    pool: &mut [u64; 6144],
    out: &mut [u8; 17408],
) -> Next
    ensures played { LinePlayed input.now at (desk pool.old nodes out.old) result
        pool.new out.new }
    ensures fits { result.end ≤ 17408 }
    ensures goes_on { at < length input.now → at < result.at }
{
    if input.len() <= at {
        return Next { at, nodes, end: 0 };
    }
    if MOST_INPUT < input.len() {
        // no refusal of a call: only an input as a whole is answered so
        let too_long = TwoWords { code: 12, value: 0 };
        return Next {
            at: input.len(),
            nodes,
            end: tell(out, too_long, &[]),
        };
    }
    let (line, taken) = first_line(&input[at..]);
    let mut nodes = nodes;
    let end = play_line(line, pool, &mut nodes, out);
    Next {
        at: at + taken,
        nodes,
        end,
    }
}
