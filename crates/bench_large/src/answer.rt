use crate::first::first_line;
use crate::games::reasons_line;
use crate::legality::legal_line;
use std::alloc::{AllocError, Global};

/// The answer to the words, and `?` where they ask nothing.
pub fn answer(alloc: Global, words: &[String]) -> Result<String, AllocError> {
    match words {
        [word, times] => of_times(alloc, word.as_str(), times.as_str()),
        _ => unasked(alloc),
    }
}

fn unasked(alloc: Global) -> Result<String, AllocError> {
    String::from_str(alloc, "?")
}

fn of_times(alloc: Global, word: &str, times: &str) -> Result<String, AllocError> {
    match times.parse::<u32>() {
        Ok(times) => of_number(alloc, word, times),
        Err(_) => unasked(alloc),
    }
}

fn of_number(alloc: Global, word: &str, times: u32) -> Result<String, AllocError> {
    match word {
        "propagate" => reasons_line(alloc, times),
        "legal" => legal_line(alloc, times),
        "first" => first_line(alloc, times),
        _ => unasked(alloc),
    }
}
