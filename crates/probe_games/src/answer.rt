use crate::propagations::propagation_line;
use crate::rows::{point_line, rows_line};
use crate::tableaus::tableau_line;
use probe_words::{NoAnswer, Stated, behind, box_of, cuts_of, game_before, line_of, parted};
use qm_game::Game;
use std::alloc::{AllocError, Global};

/// The answer to a line, and `?` where the line asks nothing.
pub fn answer(alloc: Global, line: &str) -> Result<String, AllocError> {
    let (word, words) = line.split_once(' ').unwrap_or((line, ""));
    match game_before(alloc, words)? {
        Stated::Game(game) => line_of(alloc, box_answer(alloc, word, &game, behind(words))),
        Stated::Nothing(line) => Ok(line),
    }
}

fn box_answer(alloc: Global, word: &str, game: &Game, words: &str) -> Result<String, NoAnswer> {
    match word {
        "rows" => Ok(rows_line(alloc, game, &box_of(alloc, game, words.trim_end())?)?),
        "point" => {
            let (_, values) = parted(words, "at ");
            Ok(point_line(alloc, game, values)?)
        }
        "propagate" => Ok(propagation_line(alloc, game, box_of(alloc, game, words.trim_end())?)?),
        "tableau" => tableau_of(alloc, game, words),
        _ => Err(NoAnswer::Spelling),
    }
}

fn tableau_of(alloc: Global, game: &Game, words: &str) -> Result<String, NoAnswer> {
    let (head, pivots) = parted(words, "after ");
    let (ranges, cuts) = parted(head, "with ");
    let bx = box_of(alloc, game, ranges)?;
    let cuts = cuts_of(alloc, game, cuts)?;
    Ok(tableau_line(alloc, game, cuts.as_slice(), &bx, pivots)?)
}
