use crate::answer::unasked;
use crate::asked::Asked;
use bench_made::game_of;
use qm_certfile::Certificate;
use qm_game::Game;
use qm_io::Memory;
use qm_search::{SearchFault, Solved, solve};
use std::alloc::Global;

/// The most entries of a search.
pub const MOST: u64 = 50_000_000;

/// How searches end.
#[derive(Clone, Copy)]
pub enum Found {
    Value,
    NoValue,
    Spent,
    Leave,
    None,
}

impl Found {
    pub fn word(self) -> &'static str {
        match self {
            Found::Value => "optimal",
            Found::NoValue => "no-value",
            Found::Spent => "spent",
            Found::Leave => "leaves",
            Found::None => "none",
        }
    }
}

/// How a search ends, and how many entries the journal beside its certificate has.
#[derive(Clone, Copy)]
pub struct Search {
    pub found: Found,
    pub entries: usize,
}

impl Search {
    fn with(solved: &Solved) -> Search {
        Search {
            found: found_by(&solved.certificate),
            entries: solved.journal.entries().len(),
        }
    }

    fn without(found: Found) -> Search {
        Search { found, entries: 0 }
    }
}

/// How a search with this certificate ends.
pub fn found_by(certificate: &Certificate) -> Found {
    match certificate {
        Certificate::Optimal { .. } => Found::Value,
        _ => Found::NoValue,
    }
}

/// How the last of so many searches of the game ends.
pub fn last_search(alloc: Global, game: &Game, times: u32) -> Result<Search, Memory> {
    let mut last = Search::without(Found::None);
    for _ in 0..times {
        last = searched(alloc, game)?;
    }
    Ok(last)
}

fn searched(alloc: Global, game: &Game) -> Result<Search, Memory> {
    match solve(alloc, game, MOST) {
        Ok(solved) => Ok(Search::with(&solved)),
        Err(SearchFault::Spent(_)) => Ok(Search::without(Found::Spent)),
        Err(SearchFault::Leave(_)) => Ok(Search::without(Found::Leave)),
        Err(SearchFault::Memory) => Err(Memory),
    }
}

/// How the last search of a made problem ends, and how many entries its journal has.
pub fn solve_line(alloc: Global, asked: Asked) -> Result<String, Memory> {
    let text = asked.made.text(alloc)?;
    match game_of(alloc, text.as_str()) {
        Some(game) => {
            let search = last_search(alloc, &game, asked.times)?;
            let word = search.found.word();
            let entries = search.entries;
            Ok(format!(in alloc; "{word} {entries}")?)
        }
        None => unasked(alloc),
    }
}
