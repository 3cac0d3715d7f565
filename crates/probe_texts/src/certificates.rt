ghost use Rattle.std.specs.Prelude.{◌<◌, ◌^◌, length};

use probe_words::{Stated, bytes_of, game_of};
use qm_certfile::write;
use qm_certread::{CertFault, read};
use qm_game::Game;
use std::alloc::{AllocError, Global};

/// The most bytes of a certificate that is read.
const MOST: usize = 0x7FFF_FFFF;

/// What is read of a certificate's text for a game, as `"MAX 3 ST ORDER END" | "optimal 3\n"`: the first line at fault, or
/// whether the certificate is written as it was read.
pub fn certificate_of(alloc: Global, asked: &str) -> Result<String, AllocError> {
    let Some((game, certificate)) = asked.split_once(" | ") else {
        return String::from_str(alloc, "?");
    };
    match bytes_of(alloc, certificate)? {
        Some(text) if text.len() <= MOST => read_for(alloc, game, &text),
        _ => String::from_str(alloc, "?"),
    }
}

fn read_for(alloc: Global, game: &str, text: &[u8]) -> Result<String, AllocError>
    requires { length text.now < 2 ^ 31 }
{
    match game_of(alloc, game)? {
        Stated::Game(game) => read_of(alloc, &game, text),
        Stated::Nothing(line) => Ok(line),
    }
}

fn read_of(alloc: Global, game: &Game, text: &[u8]) -> Result<String, AllocError>
    requires { length text.now < 2 ^ 31 }
{
    match read(alloc, text, game) {
        Ok(certificate) => match write(alloc, game, &certificate) {
            Ok(again) if again.as_slice() == text => String::from_str(alloc, "read"),
            Ok(_) => String::from_str(alloc, "another text"),
            Err(_) => String::from_str(alloc, "memory"),
        },
        Err(CertFault::Text(line)) => format!(in alloc; "{line} text"),
        Err(CertFault::Number(line)) => format!(in alloc; "{line} number"),
        Err(CertFault::Memory) => String::from_str(alloc, "memory"),
    }
}
