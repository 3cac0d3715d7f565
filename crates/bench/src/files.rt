ghost use Rattle.std.specs.Prelude.{◌≤◌};

use crate::answer::unasked;
use crate::solved::{Found, MOST, found_by};
use bench_made::game_of_bytes;
use qm_certfile::write;
use qm_game::Game;
use qm_io::{Memory, ReadFault, Source, Whole, read_all};
use qm_search::{SearchFault, Solved, solve};
use std::alloc::Global;

/// The most bytes that a problem has.
const MOST_BYTES: usize = 4_194_304;

/// How a search of the problem in the file ends within a budget of entries, how many entries it makes, and how many bytes
/// the text of its certificate has.
pub fn file_line<S: Source>(alloc: Global, file: &mut S, budget: &str) -> Result<String, Memory> {
    match budget.parse::<u64>() {
        Ok(budget) if budget >= 1 && budget <= MOST => match game_in(alloc, file)? {
            Some(game) => search_line(alloc, &game, budget),
            None => unasked(alloc),
        },
        _ => unasked(alloc),
    }
}

// The game that the file states, if it can be read and states one.
fn game_in<S: Source>(alloc: Global, file: &mut S) -> Result<Option<Game>, Memory> {
    match read_all(alloc, file, MOST_BYTES) {
        Ok(Whole::Bytes(text)) => Ok(game_of_bytes(alloc, text.as_slice())),
        Ok(Whole::Longer) => Ok(None),
        Err(ReadFault::Read) => Ok(None),
        Err(ReadFault::Memory) => Err(Memory),
    }
}

fn search_line(alloc: Global, game: &Game, budget: u64) -> Result<String, Memory>
    requires some { 1 ≤ budget }
    requires few { budget ≤ 50000000 }
{
    match solve(alloc, game, budget) {
        Ok(solved) => solved_line(alloc, game, &solved),
        Err(SearchFault::Spent(_)) => counted_line(alloc, Found::Spent, budget as usize, 0),
        Err(SearchFault::Leave(_)) => counted_line(alloc, Found::Leave, 0, 0),
        Err(SearchFault::Memory) => Err(Memory),
    }
}

fn solved_line(alloc: Global, game: &Game, solved: &Solved) -> Result<String, Memory> {
    let bytes = write(alloc, game, &solved.certificate)?.len();
    let entries = solved.journal.entries().len();
    counted_line(alloc, found_by(&solved.certificate), entries, bytes)
}

fn counted_line(
    alloc: Global,
    found: Found,
    entries: usize,
    bytes: usize,
) -> Result<String, Memory> {
    let word = found.word();
    Ok(format!(in alloc; "{word} entries {entries} bytes {bytes}")?)
}
