// The name that a line begins with, and the fields after it.
ghost use Rattle.std.specs.Prelude.{◌≡◌, ℕ, ◌*◌, ◌<◌, length, Bool, Option};
ghost use Rattle.order.specs.Asked.{Asked};
ghost use Rattle.text.specs.Text.{fields as Text·fields};
ghost use Rattle.grammar.specs.Lines.{given, hex_words, marked, marked_at, named, order_with, two_numbers};
ghost use Rattle.grammar.specs.Lines.{Wanted, WordsRead};

use text::{decimal, first_field, hex_word};

// The name that a line begins with.
#[derive(Clone, Copy, Debug, PartialEq, Eq, Hash)]
pub enum Name {
    Pool,
    Load,
    Insert,
    Remove,
    Get,
    Rank,
    Select,
    Gap,
    Dump,
}

// The name that a field is.
#[tactic(auto, using(crate::proofs::Names::no_name_read))]
pub fn name_of(field: &[u8]) -> Option<Name>
    ensures { result ≡ named field.now }
{
    match field {
        b"pool" => Some(Name::Pool),
        b"load" => Some(Name::Load),
        b"ins" => Some(Name::Insert),
        b"rem" => Some(Name::Remove),
        b"get" => Some(Name::Get),
        b"rank" => Some(Name::Rank),
        b"sel" => Some(Name::Select),
        b"gap" => Some(Name::Gap),
        b"dump" => Some(Name::Dump),
        _ => None,
    }
}

// Two decimals and nothing else.
fn two_decimals(fields: &[u8]) -> Option<(u64, u64)>
    ensures { (ask : ℕ → ℕ → Option Wanted)
        → two_numbers (Text·fields fields.now) ask ≡ given result ask }
{
    let (first, rest) = first_field(fields);
    Some((decimal(first)?, decimal(rest?)?))
}

// A number that is to be a bit: as order's, of which a line wants no refusal.
fn bit(number: u64) -> Option<bool>
    ensures { (ask : Bool → Asked) → order_with number ask ≡ marked result ask }
{
    match number {
        0 => Some(false),
        1 => Some(true),
        _ => None,
    }
}

// A place and then a bit.
pub fn place_and_bit(fields: &[u8]) -> Option<(u64, bool)>
    ensures { (ask : ℕ → Bool → Asked)
        → two_numbers (Text·fields fields.now) (λ i b. order_with b (ask i)) ≡ marked_at result ask }
{
    let (place, number) = two_decimals(fields)?;
    Some((place, bit(number)?))
}

// A bit and then a place or a count, which is told first.
pub fn bit_and_place(fields: &[u8]) -> Option<(u64, bool)>
    ensures { (ask : ℕ → Bool → Asked)
        → two_numbers (Text·fields fields.now) (λ b i. order_with b (ask i)) ≡ marked_at result ask }
{
    let (number, place) = two_decimals(fields)?;
    Some((place, bit(number)?))
}

// Hexadecimal words and nothing else, at least one; they are put in a row, and it is said how many they are.
pub fn hex_words(fields: &[u8], words: &mut [u64]) -> Option<usize>
    requires { length fields.now < 17 * length words.old }
    ensures { WordsRead (hex_words (Text·fields fields.now)) result words.new }
{
    let mut rest = Some(fields);
    // counted, as how many words were stored is the answer
    let mut count = 0;
    while let Some(fields) = rest {
        let (field, more) = first_field(fields);
        let word = hex_word(field)?;
        words[count] = word;
        count += 1;
        rest = more;
    }
    Some(count)
}
