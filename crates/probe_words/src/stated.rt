ghost use Rattle.std.specs.Prelude.{◌≤◌, length};

use crate::bytes::bytes_of;
use crate::lines::first_line;
use qm_game::Game;
use qm_io::{List, MemorySink};
use qm_top::{Report, stated_by};
use std::alloc::{AllocError, Global};

/// The most bytes of a text that states a game.
const MOST: usize = 4_194_304;

/// What a text states: a game, or the line that says why it states none.
#[derive(Debug, Drop)]
pub enum Stated {
    Game(Game),
    Nothing(String),
}

/// The game of a text that is written as `bytes_of` reads it; else the line that refuses it, and `?` where it is spelt
/// wrongly or too long.
pub fn game_of(alloc: Global, written: &str) -> Result<Stated, AllocError> {
    match bytes_of(alloc, written)? {
        Some(text) if text.len() <= MOST => stated_by_text(alloc, &text),
        _ => nothing(alloc, "?"),
    }
}

fn nothing(alloc: Global, line: &str) -> Result<Stated, AllocError> {
    Ok(Stated::Nothing(String::from_str(alloc, line)?))
}

fn stated_by_text(alloc: Global, text: &[u8]) -> Result<Stated, AllocError>
    requires { length text.now ≤ 4194304 }
{
    match stated_by(alloc, text) {
        Ok(qm_top::Stated::Game(game)) => Ok(Stated::Game(game)),
        Ok(qm_top::Stated::Refused(report)) => refused(alloc, &report),
        Err(_) => nothing(alloc, "memory"),
    }
}

fn refused(alloc: Global, report: &Report) -> Result<Stated, AllocError> {
    let mut out = MemorySink::new(alloc, 4096, List::new(alloc));
    match report.write(&mut out) {
        Ok(()) => Ok(Stated::Nothing(first_line(alloc, out.bytes())?)),
        Err(_) => nothing(alloc, "memory"),
    }
}
