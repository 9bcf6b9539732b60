// An order as an enum, and as its three words.
ghost use Rattle.order.specs.Asked.{Bit, Reads, Writes};

use crate::answer::Refusal;

// An order, with the place or the number that it is about, and its mark.
#[derive(Clone, Copy, Debug, PartialEq, Eq, Hash)]
pub enum Order {
    Insert(u64, bool),
    Remove(u64),
    Access(u64),
    Rank(u64, bool),
    Select(u64, bool),
    Quiet,
}

// The number of each order, its first word.
const INSERT: u64 = 1;

const REMOVE: u64 = 2;

const ACCESS: u64 = 3;

const RANK: u64 = 4;

const SELECT: u64 = 5;

const QUIET: u64 = 6;

// A word that is to be a bit.
fn bit(word: u64) -> Result<bool, Refusal>
    ensures { Bit word result }
{
    match word {
        0 => Ok(false),
        1 => Ok(true),
        _ => Err(Refusal::Malformed),
    }
}

// The order's number chooses; a bit is 0 or 1, and a word that is not used is 0.
impl TryFrom<[u64; 3]> for Order {
    type Error = Refusal;

    ghost try_from_gives = { Reads };

    fn try_from(words: [u64; 3]) -> Result<Order, Refusal> {
        let [number, second, third] = words;
        match number {
            INSERT => Ok(Order::Insert(second, bit(third)?)),
            REMOVE if third == 0 => Ok(Order::Remove(second)),
            ACCESS if third == 0 => Ok(Order::Access(second)),
            RANK => Ok(Order::Rank(second, bit(third)?)),
            SELECT => Ok(Order::Select(second, bit(third)?)),
            QUIET if second == 0 && third == 0 => Ok(Order::Quiet),
            _ => Err(Refusal::Malformed),
        }
    }
}

// The three words of an order.
impl From<Order> for [u64; 3] {
    ghost from_gives = { Writes };

    fn from(order: Order) -> [u64; 3] {
        match order {
            Order::Insert(index, bit) => [INSERT, index, bit as u64],
            Order::Remove(index) => [REMOVE, index, 0],
            Order::Access(index) => [ACCESS, index, 0],
            Order::Rank(end, bit) => [RANK, end, bit as u64],
            Order::Select(k, bit) => [SELECT, k, bit as u64],
            Order::Quiet => [QUIET, 0, 0],
        }
    }
}
