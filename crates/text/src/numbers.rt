// Numbers as text: digits of a base, the highest first.
ghost use Rattle.std.specs.Prelude.{◌≡◌, ◌+◌, ◌^◌, ◌≤◌, ◌<◌, length, MatchOption};
ghost use Rattle.text.specs.Text.{decimal_text, digits, fitting, hex_text, hex_word, over, worth as Text·worth};
ghost use Rattle.text.specs.Text.{decimal as Text·decimal, glyph as Text·glyph, numeral as Text·numeral};

// What a byte is worth as a digit. char::to_digit would take upper case too.
fn digit(byte: u8) -> Option<u64>
    ensures { MatchOption result (16 ≡ Text·worth byte) (λ d. (d ≡ Text·worth byte) × (d < 16)) }
{
    match byte {
        b'0'..=b'9' => Some((byte - b'0') as u64),
        b'a'..=b'f' => Some((byte - b'a') as u64 + 10),
        _ => None,
    }
}

// The number that digits of a base make.
fn numeral(field: &[u8], base: u64) -> Option<u64>
    requires { (1 < base) × (base ≤ 16) × (base ^ length field.now ≤ 2 ^ 64) }
    ensures { result ≡ Text·numeral base field.now }
{
    let mut value = 0;
    for &byte in field {
        let worth = digit(byte)?;
        if base <= worth {
            return None;
        }
        value = value * base + worth;
    }
    Some(value)
}

// 1 to 18 decimal digits.
pub fn decimal(field: &[u8]) -> Option<u64>
    ensures { result ≡ Text·decimal field.now }
{
    match field.len() {
        1..=18 => numeral(field, 10),
        _ => None,
    }
}

// Exactly 16 hexadecimal digits, in lower case.
pub fn hex_word(field: &[u8]) -> Option<u64>
    ensures { result ≡ hex_word field.now }
{
    match field.len() {
        16 => numeral(field, 16),
        _ => None,
    }
}

// The byte of a digit. By char::from_digit it would be an unwrap between two casts.
fn glyph(worth: u64) -> u8
    requires { worth < 16 }
    ensures { result ≡ Text·glyph worth }
{
    if worth < 10 {
        return b'0' + worth as u8;
    }
    b'a' + (worth - 10) as u8
}

// How many decimal digits a number has.
fn places(number: u64) -> usize
    ensures { result ≡ fitting 19 1 number }
{
    match number.checked_ilog10() {
        Some(power) => power as usize + 1,
        None => 1,
    }
}

// Puts the last digits of a number, so many, at a place: by index, as what is written through iter_mut is not known
// afterwards.
fn put_digits(out: &mut [u8], at: usize, number: u64, base: u64, count: usize)
    requires { (1 < base) × (base ≤ 16) × (at + count ≤ length out.old) }
    ensures { out.new ≡ over at (digits base count number) out.old }
{
    let mut rest = number;
    for i in (0..count).rev() {
        out[at + i] = glyph(rest % base);
        rest /= base;
    }
}

// Puts a number's decimal digits at a place, and says where they end: by hand, as they go into a row that was lent. A
// formatter needs a writer; there is no heap for one, and what the library's writer over a row holds is not known. The
// row and the place stay two arguments: `&mut out[end..]` and a sum at each call would be no plainer.
pub fn put_decimal(out: &mut [u8], at: usize, number: u64) -> usize
    requires { at + 20 ≤ length out.old }
    ensures end { result ≡ at + length (decimal_text number) }
    ensures written { out.new ≡ over at (decimal_text number) out.old }
{
    let count = places(number);
    put_digits(out, at, number, 10, count);
    at + count
}

// Puts a word's 16 hexadecimal digits at a place, and says where they end; what it asks is said as above.
pub fn put_hex(out: &mut [u8], at: usize, word: u64) -> usize
    requires { at + 16 ≤ length out.old }
    ensures end { result ≡ at + 16 }
    ensures written { out.new ≡ over at (hex_text word) out.old }
{
    put_digits(out, at, word, 16, 16);
    at + 16
}
