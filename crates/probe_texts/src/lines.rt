use probe_words::bytes_of;
use qm_lex::{Place, place_at};
use qm_text::line_end;
use std::alloc::{AllocError, Global};

/// The most bytes of a text that has places.
const MOST: usize = 0x7FFF_FFFF;

/// Where the line that goes on at a byte ends, as `0 "ab\n"`; `none` where it doesn't.
pub fn line_end_of(alloc: Global, words: &str) -> Result<String, AllocError> {
    match at_of(alloc, words)? {
        Some((at, text)) if at <= text.len() => match line_end(&text, at) {
            Some(end) => format!(in alloc; "{end}"),
            None => String::from_str(alloc, "none"),
        },
        _ => String::from_str(alloc, "?"),
    }
}

/// The line and the column of a byte of a text, as `0 "ab\n"`.
pub fn place_of(alloc: Global, words: &str) -> Result<String, AllocError> {
    match at_of(alloc, words)? {
        Some((at, text)) if at <= text.len() && text.len() <= MOST => {
            let Place { line, column } = place_at(&text, at);
            format!(in alloc; "{line} {column}")
        }
        _ => String::from_str(alloc, "?"),
    }
}

// The number of a byte, and the bytes of the text behind it.
fn at_of(alloc: Global, words: &str) -> Result<Option<(usize, Vec<u8>)>, AllocError> {
    let Some((at, written)) = words.split_once(' ') else {
        return Ok(None);
    };
    match (at.parse::<usize>(), bytes_of(alloc, written)?) {
        (Ok(at), Some(text)) => Ok(Some((at, text))),
        _ => Ok(None),
    }
}
