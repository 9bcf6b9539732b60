// A list of orders on one pool. The pool is tested once; then each order is served, and its answer written.
ghost use Rattle.std.specs.Prelude.{◌++◌, ◌≡◌, ◌*◌, ◌≤◌, drop, length, map};
ghost use Rattle.model.specs.Pool.{Pool};
ghost use Rattle.run.specs.Runs.{Ran};
ghost use Rattle.window.specs.Layout.{Stands};
ghost use Rattle.order.specs.Asked.{asked_by};
ghost use Rattle.run.specs.Orders.{after_all, answer_words, answers};

use crate::serving::served;
use order::{ANSWER_WORDS, Answer, ORDER_WORDS, Refusal, TwoWords};
use window::{judged, nodes_of};

// Serves orders, one after the other, and writes their answers.
fn serve_all(pool: &mut [u64], n: usize, orders: &[[u64; ORDER_WORDS]], out: &mut [u64])
    requires { (p : Pool) × Stands pool.old n p × (length orders.now * 2 ≤ length out.old) }
    ensures { (p : Pool) → Stands pool.old n p
        → Stands pool.new n (after_all (map asked_by orders.now) p)
        × (out.new ≡ answer_words (answers (map asked_by orders.now) p)
        ++ drop (length orders.now * 2) out.old) }
{
    // the output is written by its index: of chunks that were lent for writing, what they end as is not known
    for (i, order) in orders.iter().enumerate() {
        let answer = served(pool, n, *order);
        let words = TwoWords::from(answer);
        let to = i * ANSWER_WORDS;
        out[to] = words.code;
        out[to + 1] = words.value;
    }
}

// Serves a list of orders; beside 0 how many.
pub fn run(pool: &mut [u64], orders: &[u64], out: &mut [u64]) -> Answer
    ensures { Ran pool.old orders.now out.old result pool.new
        out.new }
{
    let n = nodes_of(pool)?;
    let (orders, part) = orders.as_chunks::<ORDER_WORDS>();
    if !part.is_empty() {
        return Err(Refusal::PartOrder);
    }
    if out.len() / ANSWER_WORDS < orders.len() {
        return Err(Refusal::ShortOutput);
    }
    judged(pool, n)?;
    serve_all(pool, n, orders, out);
    Ok(orders.len() as u64)
}
