use crate::entries::entries_line;
use crate::parses::rows_in;
use crate::texts::tokens_in;
use crate::work::work_line;
use std::alloc::{AllocError, Global};

/// The answer to the words, and `?` where they ask nothing.
pub fn answer(alloc: Global, words: &[String]) -> Result<String, AllocError> {
    match words {
        [word, times] => of_times(alloc, word.as_str(), times.as_str()),
        [work, operands, times] => {
            work_line(alloc, work.as_str(), operands.as_str(), times.as_str())
        }
        _ => unasked(alloc),
    }
}

/// The answer where nothing is asked.
pub fn unasked(alloc: Global) -> Result<String, AllocError> {
    String::from_str(alloc, "?")
}

fn of_times(alloc: Global, word: &str, times: &str) -> Result<String, AllocError> {
    match times.parse::<u32>() {
        Ok(times) => of_number(alloc, word, times),
        Err(_) => unasked(alloc),
    }
}

fn of_number(alloc: Global, word: &str, times: u32) -> Result<String, AllocError> {
    match word {
        "tokens" => count_line(alloc, tokens_in(alloc, times)?),
        "parse" => count_line(alloc, rows_in(alloc, times)?),
        "entries" => entries_line(alloc, times),
        _ => unasked(alloc),
    }
}

fn count_line(alloc: Global, count: usize) -> Result<String, AllocError> {
    format!(in alloc; "{count}")
}
