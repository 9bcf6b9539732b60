// What a line asks for, by its name and its fields.
ghost use Rattle.std.specs.Prelude.{◌*◌, ◌≤◌, ◌<◌, IfSome};
ghost use Rattle.std.proofs.Math.ListN as ListN;
ghost use Rattle.text.specs.Text.{fields as Text·fields, fields_left};
ghost use Rattle.grammar.specs.Lines.{line_of, load_of, Reads, Tells};

use crate::fields::{Name, bit_and_place, hex_words, name_of, place_and_bit};
use order::Order;
use text::{decimal, first_field};

// How many marks are to be built, and from how many words. The words themselves stay in the row that was lent, as there
// is no heap.
#[derive(Clone, Copy, Debug, PartialEq, Eq, Hash)]
pub struct Load {
    pub length: u64,
    pub count: usize,
}

#[derive(Clone, Copy, Debug, PartialEq, Eq, Hash)]
pub enum Line {
    Pool(u64),
    Load(Load),
    Order(Order),
    Dump,
}

// A length, and then none or more words.
fn load_line(fields: &[u8], words: &mut [u64]) -> Option<Line>
    requires { ListN.length fields.now < 17 * ListN.length words.old }
    ensures { Tells (load_of (Text·fields fields.now)) result words.new }
{
    let (first, rest) = first_field(fields);
    let length = decimal(first)?;
    let count = match rest {
        Some(rest) => hex_words(rest, words)?,
        None => 0,
    };
    Some(Line::Load(Load { length, count }))
}

// What a name asks for with the fields after it.
fn asked(name: Name, fields: Option<&[u8]>, words: &mut [u64]) -> Option<Line>
    requires { IfSome fields (λ f. ListN.length f.now < 17 * ListN.length words.old) }
    ensures { Tells (line_of name (fields_left fields.entry)) result words.new }
{
    match (name, fields) {
        (Name::Pool, Some(fields)) => Some(Line::Pool(decimal(fields)?)),
        (Name::Load, Some(fields)) => load_line(fields, words),
        (Name::Insert, Some(fields)) => {
            let (index, bit) = place_and_bit(fields)?;
            Some(Line::Order(Order::Insert(index, bit)))
        }
        (Name::Remove, Some(fields)) => Some(Line::Order(Order::Remove(decimal(fields)?))),
        (Name::Get, Some(fields)) => Some(Line::Order(Order::Access(decimal(fields)?))),
        (Name::Rank, Some(fields)) => {
            let (end, bit) = bit_and_place(fields)?;
            Some(Line::Order(Order::Rank(end, bit)))
        }
        (Name::Select, Some(fields)) => {
            let (k, bit) = bit_and_place(fields)?;
            Some(Line::Order(Order::Select(k, bit)))
        }
        (Name::Gap, None) => Some(Line::Order(Order::Quiet)),
        (Name::Dump, None) => Some(Line::Dump),
        _ => None,
    }
}

// What a line asks for. The words of a load are put in a row.
pub fn read(line: &[u8], words: &mut [u64]) -> Option<Line>
    requires { (ListN.length line.now ≤ 16384) × (1024 ≤ ListN.length words.old) }
    ensures { Reads line.now result words.new }
{
    let (name, fields) = first_field(line);
    asked(name_of(name)?, fields, words)
}
