ghost use Rattle.std.specs.Prelude.{◌<◌, ◌≤◌, ◌^◌, IfSome};

use probe_words::one_line;
use qm_gen::generate;
use qm_io::Memory;
use std::alloc::{AllocError, Global};

/// The text of a number and a size in one line, as `1 3`; `?` where there is none.
pub fn made_of(alloc: Global, words: &str) -> Result<String, AllocError> {
    match number_and_size(words) {
        Some((number, size)) => match generate(alloc, number, size) {
            Ok(text) => one_line(alloc, text.as_slice()),
            Err(Memory) => String::from_str(alloc, "memory"),
        },
        None => String::from_str(alloc, "?"),
    }
}

/// How many bytes that text has.
pub fn bytes_made_of(alloc: Global, words: &str) -> Result<String, AllocError> {
    match number_and_size(words) {
        Some((number, size)) => match generate(alloc, number, size) {
            Ok(text) => {
                let bytes = text.len();
                format!(in alloc; "{bytes}")
            }
            Err(Memory) => String::from_str(alloc, "memory"),
        },
        None => String::from_str(alloc, "?"),
    }
}

// A number below 2^31 and a size from 1 to 100.
fn number_and_size(words: &str) -> Option<(u32, u32)>
    ensures { IfSome result (λ words. (words.0 < 2 ^ 31) × (1 ≤ words.1) × (words.1 ≤ 100)) }
{
    let (number, size) = words.split_once(' ')?;
    let number = number.parse::<u32>().ok()?;
    let size = size.parse::<u32>().ok()?;
    if number < 0x8000_0000 && 1 <= size && size <= 100 {
        Some((number, size))
    } else {
        None
    }
}
