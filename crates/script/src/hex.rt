// Bytes as pairs of hexadecimal digits, both ways.
ghost use Rattle.std.specs.Prelude.{◌≡◌, ℕ, ◌+◌, ◌*◌, ◌<◌, ◌≤◌, length, IfOk};
ghost use Rattle.script.specs.Hex.{digit_value, byte_at, SpelledBy};

use crate::problems::{Problem, Wrong};
use std::alloc::{AllocError, Global};
use std::fmt;

// The value of a digit, small or capital.
fn digit_value(digit: u8) -> Option<u8>
    ensures { result ≡ digit_value digit }
{
    let value = char::from(digit).to_digit(16)?;
    Some(value as u8)
}

// The byte that a pair of digits spells.
fn byte_of(pair: &[u8; 2]) -> Option<u8>
    ensures { result ≡ byte_at pair.now 0 }
{
    let [high, low] = *pair;
    let high = digit_value(high)?;
    let low = digit_value(low)?;
    Some(16 * high + low)
}

// The bytes that pairs of digits spell, or nothing where the text is no such pairs.
pub fn from_hex(heap: Global, text: &[u8]) -> Result<Option<Vec<u8>>, AllocError>
    ensures { IfOk result (SpelledBy text.now) }
{
    let (pairs, rest) = text.as_chunks::<2>();
    if !rest.is_empty() {
        return Ok(None);
    }
    let mut bytes = Vec::new(heap);
    for pair in pairs {
        let Some(byte) = byte_of(pair) else {
            return Ok(None);
        };
        bytes.push(byte)?;
    }
    Ok(Some(bytes))
}

// The bytes that the digits on a line spell. Digits that spell none are told by the line's number.
pub(crate) fn spelled(heap: Global, digits: &str, line: usize) -> Result<Vec<u8>, Problem> {
    from_hex(heap, digits.as_bytes())?.ok_or(Wrong::NotHex.on(line))
}

// Adds the digits of bytes to a text.
pub fn push_hex(text: &mut String, bytes: &[u8]) -> fmt::Result {
    for b in bytes {
        write!(text, "{b:02x}")?;
    }
    Ok(())
}
