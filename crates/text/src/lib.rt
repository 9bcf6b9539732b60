// Text in bytes: numbers as digits, read and put, and the fields of a line. Nothing here knows what a line asks for.
#![tactic(auto)]

mod fields;
mod numbers;
mod scan;

pub use fields::{NEWLINE, SPACE, field_end, first_field, is_word};
pub use numbers::{decimal, hex_word, put_decimal, put_hex};
pub use scan::find;
