use crate::ends::leaves_line;
use probe_words::{number_words, one_line};
use qm_certfile::{Certificate, write};
use qm_game::Game;
use qm_search::{Leave, SearchFault, solve};
use std::alloc::{AllocError, Global};

/// The most entries of a search.
const MOST: u64 = 1_000_000;

/// The certificate of a game, in one line, or the prefix whose leaf run leaves the range.
pub fn solve_line(alloc: Global, game: &Game) -> Result<String, AllocError> {
    match solve(alloc, game, MOST) {
        Ok(solved) => certificate_line(alloc, game, &solved.certificate),
        Err(SearchFault::Spent(_)) => String::from_str(alloc, "spent"),
        Err(SearchFault::Leave(leave)) => leave_line(alloc, &leave),
        Err(SearchFault::Memory) => String::from_str(alloc, "memory"),
    }
}

fn certificate_line(
    alloc: Global,
    game: &Game,
    certificate: &Certificate,
) -> Result<String, AllocError> {
    match write(alloc, game, certificate) {
        Ok(text) => one_line(alloc, text.as_slice()),
        Err(_) => String::from_str(alloc, "memory"),
    }
}

fn leave_line(alloc: Global, leave: &Leave) -> Result<String, AllocError> {
    let prefix = number_words(alloc, leave.prefix.as_slice())?;
    let run = leaves_line(alloc, &leave.run)?;
    format!(in alloc; "prefix{prefix} {run}")
}
