// An order and its three words, and an answer and its two. What the words ask and what a plain list of marks answers is
// in specs/.
#![tactic(auto)]

mod answer;
mod asked;
mod number;

pub use answer::{Answer, Refusal, TwoWords};
pub use asked::Order;
pub use number::{ANSWER_WORDS, ORDER_WORDS};
