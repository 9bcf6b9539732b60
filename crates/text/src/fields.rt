// The fields of a line, between single spaces.
ghost use Rattle.std.specs.Prelude.{◌∷◌, ◌≡◌, ◌+◌, ◌≤◌, length, IfSome};
ghost use Rattle.text.specs.Bytes.{index_of};
ghost use Rattle.text.specs.Text.{fields as Text·fields, fields_left, same};

use crate::scan::find;

pub const SPACE: u8 = b' ';

pub const NEWLINE: u8 = b'\n';

// Where the first field ends: at a space, or at the end. It is kept for those who read fields by themselves; that its
// contract fixes the answer is `field_end_pinned`.
pub fn field_end(fields: &[u8]) -> usize
    ensures place { result ≡ index_of 32 fields.now }
    ensures within { result ≤ length fields.now }
{
    find(fields, SPACE).unwrap_or(fields.len())
}

// The first field, and the fields after it where there are more.
pub fn first_field(fields: &[u8]) -> (&[u8], Option<&[u8]>)
    ensures fields { Text·fields fields.now ≡ result.0.now ∷ fields_left result.1 }
    ensures lengths { IfSome result.1
        (λ rest. length result.0.now + 1 + length rest.now ≡ length fields.now) }
{
    match find(fields, SPACE) {
        Some(end) => (&fields[..end], Some(&fields[end + 1..])),
        None => (fields, None),
    }
}

// A field is a word, byte for byte. It is kept for those who read fields by themselves; that its contract fixes the
// answer is `is_word_pinned`.
#[tactic(auto, using(crate::proofs::Cutting::same_is))]
pub fn is_word(field: &[u8], word: &[u8]) -> bool
    ensures { result ≡ same field.now word.now }
{
    field == word
}
