// The calls as a C host sees them: the answer comes back as two words, its number and its value. A C host links them
// as `spelunzone_c` exports them.
#![tactic(auto)]

ghost use Rattle.spelunzone.specs.Reply.{Replies, Carries};
ghost use Rattle.run.specs.Runs.{Ran};
ghost use Rattle.window.specs.Calls.{BuildsTo, Checked, Valued};

use order::{Answer, TwoWords};

// `TwoWords` of the crate `order` in the layout that C sees.
#[repr(C)]
#[derive(Clone, Copy, Debug, PartialEq, Eq, Hash)]
pub struct Reply {
    pub code: u64,
    pub value: u64,
}

// An answer as its number and its value.
impl From<Answer> for Reply {
    ghost from_gives = { Carries };

    fn from(answer: Answer) -> Reply {
        let words = TwoWords::from(answer);
        Reply {
            code: words.code,
            value: words.value,
        }
    }
}

pub fn sz_check(pool: &[u64]) -> Reply
    ensures { Replies (Checked pool.now) result }
{
    Reply::from(window::check(pool))
}

pub fn sz_build(pool: &mut [u64], words: &[u64], length: u64) -> Reply
    ensures { Replies (λ a. BuildsTo pool.old words.now length a pool.new) result }
{
    Reply::from(window::build(pool, words, length))
}

pub fn sz_values(pool: &[u64], out: &mut [u64]) -> Reply
    ensures { Replies (λ a. Valued pool.now out.old a out.new) result }
{
    Reply::from(window::values(pool, out))
}

pub fn sz_run(pool: &mut [u64], orders: &[u64], out: &mut [u64]) -> Reply
    ensures { Replies
        (λ a. Ran pool.old orders.now out.old a pool.new
        out.new) result }
{
    Reply::from(run::run(pool, orders, out))
}
