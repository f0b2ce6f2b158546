//! Numbers and bytes in the words of a script.

ghost use Rattle.std.specs.Prelude.{◌<◌};

use std::alloc::{AllocError, Global};

/// Returns the value of a decimal number that fits `u64`.
pub fn decimal(word: Option<&[u8]>) -> Option<u64> {
    let mut value: u64 = 0;
    for byte in word? {
        let digit = byte.checked_sub(b'0')?;
        if digit > 9 {
            return None;
        }
        value = value.checked_mul(10)?.checked_add(u64::from(digit))?;
    }
    Some(value)
}

// Returns the value of a lower-case hexadecimal digit.
fn digit(byte: u8) -> u8
    ensures { result < 16 }
{
    match byte {
        b'0'..=b'9' => byte - b'0',
        b'a'..=b'f' => byte - b'a' + 10,
        _ => 0,
    }
}

/// Returns the bytes that pairs of hexadecimal digits say.
pub fn from_hex(alloc: Global, word: &[u8]) -> Result<Vec<u8>, AllocError> {
    let mut bytes = Vec::new(alloc);
    let (pairs, _) = word.as_chunks::<2>();
    for pair in pairs {
        bytes.push(digit(pair[0]) * 16 + digit(pair[1]))?;
    }
    Ok(bytes)
}

// Returns a hexadecimal digit.
fn digit_char(value: u8) -> char {
    match value {
        0..=9 => char::from(b'0' + value),
        10..=15 => char::from(b'a' + (value - 10)),
        _ => '?',
    }
}

/// Appends bytes as pairs of hexadecimal digits, or `-` if there are none.
pub fn push_hex(out: &mut String, bytes: &[u8]) -> Result<(), AllocError> {
    if bytes.is_empty() {
        out.push('-')?;
    }
    for byte in bytes {
        out.push(digit_char(*byte / 16))?;
        out.push(digit_char(*byte % 16))?;
    }
    Ok(())
}
