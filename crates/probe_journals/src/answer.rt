ghost use Rattle.std.specs.Prelude.{◌≤◌, IfOk};

use crate::asked::asked_line;
use crate::entries::{enough_line, lawful_line};
use crate::legality::legal_line;
use crate::plays::plays_line;
use probe_words::{NoAnswer, Stated, behind, box_of, game_before, line_of, parted};
use qm_game::Game;
use std::alloc::{AllocError, Global};

/// The answer to a line, and `?` where the line asks nothing.
pub fn answer(alloc: Global, line: &str) -> Result<String, AllocError> {
    let (word, words) = line.split_once(' ').unwrap_or((line, ""));
    match game_before(alloc, words)? {
        Stated::Game(game) => line_of(alloc, journal_answer(alloc, word, &game, behind(words))),
        Stated::Nothing(line) => Ok(line),
    }
}

fn journal_answer(alloc: Global, word: &str, game: &Game, words: &str) -> Result<String, NoAnswer> {
    match word {
        "legal" => {
            let (ranges, depth) = parted(words, "depth ");
            legal_line(alloc, game, box_of(alloc, game, ranges)?, depth)
        }
        "asked" => asked_line(alloc, game, limit_in(words)?),
        "plays" => plays_line(alloc, game, limit_in(words)?),
        "lawful" => {
            let (_, entries) = parted(words, "of ");
            lawful_line(alloc, game, entries)
        }
        "enough" => Ok(enough_line(alloc, game)?),
        _ => Err(NoAnswer::Spelling),
    }
}

// The number of entries behind `limit`.
fn limit_in(words: &str) -> Result<u64, NoAnswer>
    ensures some { IfOk result (λ limit. 1 ≤ limit) }
    ensures few { IfOk result (λ limit. limit ≤ 50000000) }
{
    let (_, limit) = parted(words, "limit ");
    match limit.parse::<u64>() {
        Ok(limit) if 1 <= limit && limit <= 50_000_000 => Ok(limit),
        _ => Err(NoAnswer::Spelling),
    }
}
