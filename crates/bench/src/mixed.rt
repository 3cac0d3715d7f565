use crate::answer::unasked;
use crate::asked::Asked;
use crate::runs::last_on;
use crate::solved::last_search;
use bench_made::{Density, game_of, mixed_text_of};
use qm_game::Game;
use qm_io::Memory;
use std::alloc::Global;

// The game of one leaf.
fn game(alloc: Global, density: Density, asked: Asked) -> Result<Option<Game>, Memory> {
    let text = mixed_text_of(alloc, density, asked.made)?;
    Ok(game_of(alloc, text.as_str()))
}

/// What the last of so many searches of a game of one leaf finds.
pub fn leaf_line(alloc: Global, density: Density, asked: Asked) -> Result<String, Memory> {
    match game(alloc, density, asked)? {
        Some(game) => {
            let found = last_search(alloc, &game, asked.times)?.found;
            Ok(String::from_str(alloc, found.word())?)
        }
        None => unasked(alloc),
    }
}

/// How the last run of the leaf's relaxation alone ends, and after how many pivots.
pub fn leaf_run_line(alloc: Global, density: Density, asked: Asked) -> Result<String, Memory> {
    match game(alloc, density, asked)? {
        Some(game) => {
            let ended = last_on(alloc, &game, asked.times)?;
            let word = ended.ending.word();
            let pivots = ended.pivots;
            Ok(format!(in alloc; "{word} {pivots}")?)
        }
        None => unasked(alloc),
    }
}
