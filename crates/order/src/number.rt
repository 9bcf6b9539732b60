// How many words an order and an answer have.
pub const ORDER_WORDS: usize = 3;

pub const ANSWER_WORDS: usize = 2;
