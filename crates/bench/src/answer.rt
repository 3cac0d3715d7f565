use crate::asked::Asked;
use crate::files::file_line;
use crate::mixed::{leaf_line, leaf_run_line};
use crate::relaxations::boxes_line;
use crate::runs::runs_line;
use crate::solved::solve_line;
use crate::tableaus::pivots_line;
use crate::texts::made_line;
use bench_made::Density;
use qm_io::{Memory, Source};
use std::alloc::Global;

/// The answer to the words, and `?` where they ask nothing. The file is that of their second.
pub fn answer<S: Source>(alloc: Global, words: &[String], file: &mut S) -> Result<String, Memory> {
    match words {
        [word, name, number] => match word.as_str() {
            "file" => file_line(alloc, file, number.as_str()),
            "pivots" => pivots_line(alloc, name.as_str(), number.as_str()),
            _ => unasked(alloc),
        },
        [word, size, number, times] => {
            match Asked::read(size.as_str(), number.as_str(), times.as_str()) {
                Some(asked) => of_problem(alloc, word.as_str(), asked),
                None => unasked(alloc),
            }
        }
        [word, play @ ..] => of_play(alloc, word.as_str(), play),
        [] => unasked(alloc),
    }
}

/// The answer where nothing is asked.
pub fn unasked(alloc: Global) -> Result<String, Memory> {
    Ok(String::from_str(alloc, "?")?)
}

fn of_problem(alloc: Global, word: &str, asked: Asked) -> Result<String, Memory> {
    match word {
        "made" => made_line(alloc, asked),
        "runs" => runs_line(alloc, Density::Dense, asked),
        "sparse-runs" => runs_line(alloc, Density::Sparse, asked),
        "solve" => solve_line(alloc, asked),
        "leaves" => leaf_line(alloc, Density::Dense, asked),
        "sparse-leaves" => leaf_line(alloc, Density::Sparse, asked),
        "leaf-runs" => leaf_run_line(alloc, Density::Dense, asked),
        "sparse-leaf-runs" => leaf_run_line(alloc, Density::Sparse, asked),
        _ => unasked(alloc),
    }
}

fn of_play(alloc: Global, word: &str, play: &[String]) -> Result<String, Memory> {
    match word {
        "boxes" => boxes_line(alloc, play),
        _ => unasked(alloc),
    }
}
