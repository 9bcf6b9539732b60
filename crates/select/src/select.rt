// The place of the k-th bit of a word, k from 1, at 32, 64 and 128 bits. The masked sums tell how many bits are set in
// each byte, half byte and pair; a loop finds the byte, and three steps find the bit in it.
ghost use Rattle.std.specs.Prelude.{◌++◌, ◌≡◌, ℕ, ◌+◌, ◌/◌, ◌^◌, ◌<◌, ◌≤◌};
ghost use Rattle.std.specs.Prelude.{Some};
ghost use Rattle.model.specs.Marks.{ones, place, select};
ghost use Rattle.model.specs.Word.{bits};
ghost use Rattle.select.specs.Select.{InField, chosen, sums_of};

use bits::{WORD_BITS, Word};

// The masked sums: in each pair of bits, each half byte and each byte of a word, how many of its bits are set.
#[derive(Clone, Copy)]
struct Sums {
    pairs: u64,
    halves: u64,
    bytes: u64,
}

// How far a search has come: the bit looked for is the left-th set one from pos on.
#[derive(Clone, Copy)]
struct Reached {
    pos: u64,
    left: u64,
}

// The word in which the bits looked for are set.
fn chosen<W: Word>(word: W, bit: bool) -> W
    ensures same { W.number result ≡ chosen W.width bit (W.number word) }
    ensures fits { W.number word < 2 ^ W.width }
{
    let other = word.opposite();
    if bit { word } else { other }
}

fn masked_sums(value: u64) -> Sums
    ensures { result ≡ sums_of value }
{
    let pairs = value - ((value & 0xaaaa_aaaa_aaaa_aaaa) >> 1);
    let halves = (pairs & 0x3333_3333_3333_3333) + ((pairs >> 2) & 0x3333_3333_3333_3333);
    let bytes = (halves + (halves >> 4)) & 0x0f0f_0f0f_0f0f_0f0f;
    Sums {
        pairs,
        halves,
        bytes,
    }
}

impl Reached {
    // From a field to the half of it that holds the bit, where `here` bits of its lower half are set.
    fn halved(self, here: u64, width: u64) -> Reached
        requires { self.pos + width ≤ 64 }
        ensures { (w k : ℕ) → here ≡ ones (bits width (w / 2 ^ self.pos)) → InField w k (width + width) self
            → InField w k width result }
    {
        if here < self.left {
            return Reached {
                pos: self.pos + width,
                left: self.left - here,
            };
        }
        self
    }
}

// From the byte that holds the bit to the bit, by halving the field three times.
fn place_in_byte(value: u64, sums: Sums, byte: Reached) -> u64
    requires { (sums ≡ sums_of value) × ((k : ℕ) × InField value k 8 byte) }
    ensures { (k : ℕ) → InField value k 8 byte → place k (bits 64 value) ≡ Some result }
{
    let half = byte.halved((sums.halves >> byte.pos) & 0x0f, 4);
    let pair = half.halved((sums.pairs >> half.pos) & 0x03, 2);
    let last = pair.halved((value >> pair.pos) & 0x01, 1);
    last.pos
}

// The place of the k-th set bit, where there are as many. The loop breaks with its place (docs/DECISIONS.md, 'Forms
// by place'), which an iterator over the bytes would have to hand on beside what is left.
fn place_of_set(value: u64, k: u64) -> u64
    requires { (1 ≤ k) × (k ≤ ones (bits 64 value)) }
    ensures { place k (bits 64 value) ≡ Some result }
{
    let sums = masked_sums(value);
    let mut pos: u64 = 0;
    let mut left = k;
    let byte = loop {
        let here = (sums.bytes >> pos) & 0xff;
        if left <= here {
            break Reached { pos, left };
        }
        left -= here;
        pos += 8;
    };
    place_in_byte(value, sums, byte)
}

// The place of the k-th set bit, where so many are set.
fn kth_set(value: u64, count: u64, k: u64) -> Option<u64>
    requires { count ≡ ones (bits 64 value) }
    ensures { result ≡ place k (bits 64 value) }
{
    if k == 0 || count < k {
        return None;
    }
    Some(place_of_set(value, k))
}

// The place of the k-th one, or zero, of a word.
pub fn select_word<W: Word>(word: W, bit: bool, k: u64) -> Option<u64>
    ensures { result ≡ select bit k (bits W.width (W.number word)) }
{
    let value = chosen(word, bit);
    kth_set(value.wide(), value.ones(), k)
}

// The same of 128 bits in two words.
pub fn select128(low: u64, high: u64, bit: bool, k: u64) -> Option<u64>
    ensures { result ≡ select bit k (bits 64 low ++ bits 64 high) }
{
    let in_low = chosen(low, bit).ones();
    if k <= in_low {
        return select_word(low, bit, k);
    }
    let pos = select_word(high, bit, k - in_low)?;
    Some(WORD_BITS + pos)
}
