// Words as bytes, eight for each, low byte first.
ghost use Rattle.std.specs.Prelude.{◌≤◌, length};

use std::io;
use std::io::Read;

// The bytes of a word.
pub type Bytes = [u8; 8];

// Reads as many words as there is room for, all of them at once, by way of the bytes that are lent. Where the input
// ends before that, the error is `UnexpectedEof`.
pub fn read_words<R: Read>(reader: &mut R, bytes: &mut [Bytes], words: &mut [u64]) -> io::Result<()>
    requires { length words.old ≤ length bytes.old }
{
    let bytes = &mut bytes[..words.len()];
    reader.read_exact(bytes.as_flattened_mut())?;
    for (word, bytes) in words.iter_mut().zip(bytes) {
        *word = u64::from_le_bytes(*bytes);
    }
    Ok(())
}

// Puts words into bytes, as far as these reach.
pub fn put_words(bytes: &mut [Bytes], words: &[u64]) {
    for (bytes, word) in bytes.iter_mut().zip(words) {
        *bytes = word.to_le_bytes();
    }
}
