// Answers as bytes.
ghost use Rattle.std.specs.Prelude.{[], ◌∷◌, ◌≡◌, ◌+◌, ◌*◌, ◌≤◌, ◌<◌, length};
ghost use Rattle.text.specs.Text.{over};
ghost use Rattle.script.specs.Prints.{line_text};

use order::TwoWords;
use text::{NEWLINE, SPACE, put_decimal, put_hex};

// Puts a byte at a place, and says which comes next; the arguments are as those of put_decimal and put_hex.
fn put_byte(out: &mut [u8], at: usize, byte: u8) -> usize
    requires { at < length out.old }
    ensures end { result ≡ at + 1 }
    ensures written { out.new ≡ over at (byte ∷ []) out.old }
{
    out[at] = byte;
    at + 1
}

// Writes a line at the beginning, of an answer and some words, each after a space, and says where it ends.
pub fn tell(out: &mut [u8], answer: TwoWords, words: &[u64]) -> usize
    requires { 42 + 17 * length words.now ≤ length out.old }
    ensures end { result ≡ length (line_text answer.code answer.value words.now) }
    ensures written { out.new ≡ over 0 (line_text answer.code answer.value words.now) out.old }
{
    let mut end = put_decimal(out, 0, answer.code);
    end = put_byte(out, end, SPACE);
    end = put_decimal(out, end, answer.value);
    for &word in words {
        end = put_byte(out, end, SPACE);
        end = put_hex(out, end, word);
    }
    put_byte(out, end, NEWLINE)
}
