// Bytes as hexadecimal text.
ghost use Rattle.std.specs.Prelude.{◌≡◌, ◌%◌};
ghost use Rattle.slot_desk.specs.Hex.{digit_value, digit_text};

use std::alloc::{AllocError, Global};

// The value of a digit in either case; None for what is no digit.
pub(crate) fn digit_value(text: u8) -> Option<u8>
    ensures { result ≡ digit_value text }
{
    Some((text as char).to_digit(16)? as u8)
}

pub(crate) fn digit_text(value: u8) -> char
    ensures { result ≡ digit_text (value % 16) }
{
    char::from_digit((value % 16) as u32, 16)
        .unwrap()
        .to_ascii_uppercase()
}

fn byte(pair: &[u8; 2]) -> Option<u8> {
    let [high, low] = *pair;
    Some(digit_value(high)? * 16 + digit_value(low)?)
}

// The bytes of a text of digit pairs; None where it is none.
pub(crate) fn read_bytes(heap: Global, text: &str) -> Result<Option<Vec<u8>>, AllocError> {
    let (pairs, rest) = text.as_bytes().as_chunks::<2>();
    if !rest.is_empty() {
        return Ok(None);
    }
    pairs.iter().map(byte).collect(heap)
}
