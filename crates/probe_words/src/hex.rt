ghost use Rattle.std.specs.Prelude.{◌<◌, IfSome};

use std::alloc::{AllocError, Global};

/// The bytes that are written by two hexadecimal digits each; `None` where something else is written.
pub fn bytes_of_hex(alloc: Global, hex: &[u8]) -> Result<Option<Vec<u8>>, AllocError> {
    let mut bytes = Vec::new(alloc);
    for pair in hex.chunks(2) {
        match pair {
            [high, low] => match byte_of(*high, *low) {
                Some(byte) => bytes.push(byte)?,
                None => return Ok(None),
            },
            _ => return Ok(None),
        }
    }
    Ok(Some(bytes))
}

/// The byte of two hexadecimal digits.
pub fn byte_of(high: u8, low: u8) -> Option<u8> {
    match (digit(high), digit(low)) {
        (Some(high), Some(low)) => Some(16 * high + low),
        _ => None,
    }
}

fn digit(byte: u8) -> Option<u8>
    ensures { IfSome result (λ d. d < 16) }
{
    match byte {
        b'0'..=b'9' => Some(byte - b'0'),
        b'a'..=b'f' => Some(byte - b'a' + 10),
        _ => None,
    }
}
