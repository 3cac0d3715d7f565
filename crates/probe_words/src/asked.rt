use crate::stated::{Stated, game_of};
use std::alloc::{AllocError, Global};

/// What the text states with which the words of a line begin.
pub fn game_before(alloc: Global, words: &str) -> Result<Stated, AllocError> {
    game_of(alloc, written(alloc, words)?.as_str())
}

// The text, with its quotes where it has some.
fn written(alloc: Global, words: &str) -> Result<String, AllocError> {
    match words.split_once("\" ") {
        Some((opened, _)) => format!(in alloc; "{opened}\""),
        None => {
            if words.starts_with("\"") {
                return String::from_str(alloc, words);
            }
            let (hex, _) = words.split_once(' ').unwrap_or((words, ""));
            String::from_str(alloc, hex)
        }
    }
}

/// The words behind that text.
pub fn behind(words: &str) -> &str {
    let end = if words.starts_with("\"") { "\" " } else { " " };
    let (_, rest) = words.split_once(end).unwrap_or(("", ""));
    rest
}

/// The words before a mark, and those behind it; all stand before it where there is none.
pub fn parted<'a>(words: &'a str, mark: &str) -> (&'a str, &'a str) {
    let (head, rest) = words.split_once(mark).unwrap_or((words, ""));
    (head.trim_end(), rest)
}
