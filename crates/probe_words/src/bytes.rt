use crate::hex::bytes_of_hex;
use crate::quoted::bytes_of_quoted;
use std::alloc::{AllocError, Global};

/// The bytes of a text that is written between quotes, or by two hexadecimal digits a byte; `None` where it is spelt
/// wrongly.
pub fn bytes_of(alloc: Global, written: &str) -> Result<Option<Vec<u8>>, AllocError> {
    match written.strip_prefix('"') {
        Some(opened) => match opened.strip_suffix('"') {
            Some(text) => bytes_of_quoted(alloc, text),
            None => Ok(None),
        },
        None => bytes_of_hex(alloc, written.as_bytes()),
    }
}
