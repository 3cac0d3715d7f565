use crate::ends::run_line;
use crate::relaxations::{ranges_in, relax_line, scenario_line};
use crate::solved::solve_line;
use probe_words::{NoAnswer, Stated, behind, box_of, cuts_of, game_before, line_of, parted};
use qm_game::Game;
use std::alloc::{AllocError, Global};

/// The answer to a line, and `?` where the line asks nothing.
pub fn answer(alloc: Global, line: &str) -> Result<String, AllocError> {
    let (word, words) = line.split_once(' ').unwrap_or((line, ""));
    match game_before(alloc, words)? {
        Stated::Game(game) => line_of(alloc, run_answer(alloc, word, &game, behind(words))),
        Stated::Nothing(line) => Ok(line),
    }
}

fn run_answer(alloc: Global, word: &str, game: &Game, words: &str) -> Result<String, NoAnswer> {
    match word {
        "run" => run_of(alloc, game, words),
        "relax" => relax_of(alloc, game, words, false),
        "relax_point" => relax_of(alloc, game, words, true),
        "scenario" => scenario_of(alloc, game, words, false),
        "scenario_point" => scenario_of(alloc, game, words, true),
        "solve" => Ok(solve_line(alloc, game)?),
        _ => Err(NoAnswer::Spelling),
    }
}

fn run_of(alloc: Global, game: &Game, words: &str) -> Result<String, NoAnswer> {
    let (ranges, cuts) = parted(words, "with ");
    let bx = box_of(alloc, game, ranges)?;
    let cuts = cuts_of(alloc, game, cuts)?;
    Ok(run_line(alloc, game, cuts.as_slice(), &bx)?)
}

fn relax_of(alloc: Global, game: &Game, words: &str, pointed: bool) -> Result<String, NoAnswer> {
    let bx = box_of(alloc, game, ranges_in(words))?;
    Ok(relax_line(alloc, game, &bx, words, pointed)?)
}

fn scenario_of(alloc: Global, game: &Game, words: &str, pointed: bool) -> Result<String, NoAnswer> {
    let bx = box_of(alloc, game, ranges_in(words))?;
    Ok(scenario_line(alloc, game, &bx, words, pointed)?)
}
