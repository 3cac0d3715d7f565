use crate::hex::byte_of;
use std::alloc::{AllocError, Global};

/// The most often that a part is repeated.
const MOST_TURNS: u32 = 10_000_000;

/// The bytes of a text that stood between quotes; `None` where it is spelt wrongly. A byte stands for itself, but:
/// `\n` is a line end, `\xNN` the byte of two hexadecimal digits, `\(N PART\)` a part N times, in which `\#` is how many
/// times it stood before, and in a part `\[N PART\]` repeats a smaller part in the same way.
pub fn bytes_of_quoted(alloc: Global, text: &str) -> Result<Option<Vec<u8>>, AllocError> {
    let mut out = Vec::new(alloc);
    if write_part(alloc, text, 2, 0, &mut out)? {
        Ok(Some(out))
    } else {
        Ok(None)
    }
}

// Appends the bytes of a part that may hold so many levels of repetition; whether it is spelt rightly.
fn write_part(
    alloc: Global,
    part: &str,
    levels: u8,
    turn: u32,
    out: &mut Vec<u8>,
) -> Result<bool, AllocError> {
    if levels == 0 {
        return write_plain(alloc, part, turn, out);
    }
    let (open, close) = if levels == 1 {
        ("\\[", "\\]")
    } else {
        ("\\(", "\\)")
    };
    for (number, piece) in part.split(open).enumerate() {
        let behind = if number == 0 {
            piece
        } else {
            let Some((turns, again, behind)) = repeated(piece, close) else {
                return Ok(false);
            };
            for turn in 0..turns {
                if !write_part(alloc, again, levels - 1, turn, out)? {
                    return Ok(false);
                }
            }
            behind
        };
        if !write_part(alloc, behind, levels - 1, turn, out)? {
            return Ok(false);
        }
    }
    Ok(true)
}

// How often, which part, and what stands behind its end.
fn repeated<'a>(piece: &'a str, close: &str) -> Option<(u32, &'a str, &'a str)> {
    let (head, behind) = piece.split_once(close)?;
    let (turns, again) = head.split_once(' ')?;
    let turns = turns.parse::<u32>().ok()?;
    if turns <= MOST_TURNS {
        Some((turns, again, behind))
    } else {
        None
    }
}

// Appends the bytes of a part in which nothing is repeated.
fn write_plain(
    alloc: Global,
    part: &str,
    turn: u32,
    out: &mut Vec<u8>,
) -> Result<bool, AllocError> {
    for (number, piece) in part.split('\\').enumerate() {
        let piece = piece.as_bytes();
        if number == 0 {
            out.extend_from_slice(piece)?;
        } else if !write_mark(alloc, piece, turn, out)? {
            return Ok(false);
        }
    }
    Ok(true)
}

// Appends what a mark stands for, and the bytes behind it.
fn write_mark(
    alloc: Global,
    piece: &[u8],
    turn: u32,
    out: &mut Vec<u8>,
) -> Result<bool, AllocError> {
    match piece {
        [b'n', behind @ ..] => write_behind(b"\n", behind, out),
        [b'#', behind @ ..] => {
            let turn = format!(in alloc; "{turn}")?;
            write_behind(turn.as_bytes(), behind, out)
        }
        [b'x', high, low, behind @ ..] => match byte_of(*high, *low) {
            Some(byte) => write_behind(&[byte], behind, out),
            None => Ok(false),
        },
        _ => Ok(false),
    }
}

fn write_behind(bytes: &[u8], behind: &[u8], out: &mut Vec<u8>) -> Result<bool, AllocError> {
    out.extend_from_slice(bytes)?;
    out.extend_from_slice(behind)?;
    Ok(true)
}
