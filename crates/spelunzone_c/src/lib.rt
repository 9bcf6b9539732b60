// The calls as a C host links them: each is that of `spelunzone`, with the same contract, under its own name in the
// archive.
#![tactic(auto)]

ghost use Rattle.run.specs.Runs.{Ran};
ghost use Rattle.spelunzone.specs.Reply.{Replies};
ghost use Rattle.window.specs.Calls.{BuildsTo, Checked, Valued};

use spelunzone::Reply;

#[unsafe(no_mangle)]
pub extern "C" fn sz_check(pool: &[u64]) -> Reply
    ensures { Replies (Checked pool.now) result }
{
    spelunzone::sz_check(pool)
}

#[unsafe(no_mangle)]
pub extern "C" fn sz_build(pool: &mut [u64], words: &[u64], length: u64) -> Reply
    ensures { Replies (λ a. BuildsTo pool.old words.now length a pool.new) result }
{
    spelunzone::sz_build(pool, words, length)
}

#[unsafe(no_mangle)]
pub extern "C" fn sz_values(pool: &[u64], out: &mut [u64]) -> Reply
    ensures { Replies (λ a. Valued pool.now out.old a out.new) result }
{
    spelunzone::sz_values(pool, out)
}

#[unsafe(no_mangle)]
pub extern "C" fn sz_run(pool: &mut [u64], orders: &[u64], out: &mut [u64]) -> Reply
    ensures { Replies
        (λ a. Ran pool.old orders.now out.old a pool.new
        out.new) result }
{
    spelunzone::sz_run(pool, orders, out)
}
