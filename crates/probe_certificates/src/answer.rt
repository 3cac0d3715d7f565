use crate::certificates::written_line;
use crate::combinations::combination_line;
use crate::empties::empty_line;
use crate::policies::policy_line;
use crate::refutations::refutation_line;
use probe_words::{NoAnswer, Stated, behind, box_of, cuts_of, game_before, line_of, parted};
use qm_game::Game;
use std::alloc::{AllocError, Global};

/// The answer to a line, and `?` where the line asks nothing.
pub fn answer(alloc: Global, line: &str) -> Result<String, AllocError> {
    let (word, words) = line.split_once(' ').unwrap_or((line, ""));
    match game_before(alloc, words)? {
        Stated::Game(game) => line_of(alloc, tree_answer(alloc, word, &game, behind(words))),
        Stated::Nothing(line) => Ok(line),
    }
}

fn tree_answer(alloc: Global, word: &str, game: &Game, words: &str) -> Result<String, NoAnswer> {
    match word {
        "combination" => combination_of(alloc, game, words),
        "empty" => {
            let (ranges, lines) = parted(words, "by ");
            Ok(empty_line(alloc, game, box_of(alloc, game, ranges)?, lines)?)
        }
        "policy" => {
            let (ranges, policy) = parted(words, "reaching ");
            Ok(policy_line(alloc, game, box_of(alloc, game, ranges)?, policy)?)
        }
        "refute" => refutation_of(alloc, game, words),
        "write" => {
            let (_, parts) = parted(words, "of ");
            Ok(written_line(alloc, game, parts)?)
        }
        _ => Err(NoAnswer::Spelling),
    }
}

fn combination_of(alloc: Global, game: &Game, words: &str) -> Result<String, NoAnswer> {
    let (head, entries) = parted(words, "close");
    let (ranges, cuts) = parted(head, "with ");
    let bx = box_of(alloc, game, ranges)?;
    let cuts = cuts_of(alloc, game, cuts)?;
    Ok(combination_line(alloc, game, cuts.as_slice(), &bx, entries)?)
}

fn refutation_of(alloc: Global, game: &Game, words: &str) -> Result<String, NoAnswer> {
    let (head, goal) = parted(words, "for ");
    let (ranges, cuts) = parted(head, "with ");
    let bx = box_of(alloc, game, ranges)?;
    let cuts = cuts_of(alloc, game, cuts)?;
    Ok(refutation_line(alloc, game, cuts.as_slice(), bx, goal)?)
}
