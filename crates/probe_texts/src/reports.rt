ghost use Rattle.std.specs.Prelude.{◌<◌};

use crate::memory::{numbered, sink_of, source_of};
use probe_words::{bytes_of, one_line};
use qm_io::{Memory, MemorySink};
use qm_top::run;
use std::alloc::{AllocError, Global};

// How a call is made: the most bytes of a read or a write, and the numbers of the read and the write that fail.
#[derive(Drop)]
struct Outside {
    piece: usize,
    failing_read: u64,
    failing_write: u64,
    ghost some: { 0 < piece },
}

/// The status and the text of a report, by its words and its problem, as `solve f | "MAX x"`, and where `check` is asked for
/// by the certificate behind them, as `check f c | "MAX x" | "empty\n"`.
pub fn report_of(alloc: Global, asked: &str) -> Result<String, AllocError> {
    let outside = Outside {
        piece: 4096,
        failing_read: 0,
        failing_write: 0,
    };
    answered(alloc, &outside, asked)
}

/// The same in pieces of some bytes, where a read of each source and a write may fail, counted from 1:
/// `7 3 0 solve f | "MAX x"`.
pub fn report_in_pieces(alloc: Global, asked: &str) -> Result<String, AllocError> {
    match outside_of(asked) {
        Some((outside, asked)) => answered(alloc, &outside, asked),
        None => String::from_str(alloc, "?"),
    }
}

fn outside_of(asked: &str) -> Option<(Outside, &str)> {
    let (piece, asked) = numbered(asked)?;
    let (failing_read, asked) = numbered(asked)?;
    let (failing_write, asked) = numbered(asked)?;
    if piece == 0 {
        return None;
    }
    let outside = Outside {
        piece: piece as usize,
        failing_read,
        failing_write,
    };
    Some((outside, asked))
}

fn answered(alloc: Global, outside: &Outside, asked: &str) -> Result<String, AllocError> {
    let Some((words, written)) = asked.split_once("| ") else {
        return String::from_str(alloc, "?");
    };
    // a certificate may stand behind the problem
    let (problem, certificate) = written.split_once(" | ").unwrap_or((written, "\"\""));
    match (bytes_of(alloc, problem)?, bytes_of(alloc, certificate)?) {
        (Some(problem), Some(certificate)) => {
            status_and_text(alloc, outside, words, &problem, &certificate)
        }
        _ => String::from_str(alloc, "?"),
    }
}

fn status_and_text(
    alloc: Global,
    outside: &Outside,
    words: &str,
    problem: &[u8],
    certificate: &[u8],
) -> Result<String, AllocError> {
    let words = words_of(alloc, words)?;
    let (status, out) = report(alloc, outside, &words, problem, certificate).map_err(
        |_| AllocError,
    )?;
    let text = one_line(alloc, out.bytes())?;
    format!(in alloc; "{status} {text}")
}

fn report(
    alloc: Global,
    outside: &Outside,
    words: &[String],
    problem: &[u8],
    certificate: &[u8],
) -> Result<(u8, MemorySink), Memory> {
    let mut problem = source_of(alloc, problem, outside.piece, outside.failing_read)?;
    let mut certificate = source_of(alloc, certificate, outside.piece, outside.failing_read)?;
    let mut moves = source_of(alloc, b"", 1, 0)?;
    let mut out = sink_of(alloc, outside.piece, outside.failing_write)?;
    let status = run(
        alloc,
        words,
        &mut problem,
        &mut certificate,
        &mut moves,
        &mut out,
    );
    Ok((status, out))
}

fn words_of(alloc: Global, text: &str) -> Result<Vec<String>, AllocError> {
    let mut words = Vec::new(alloc);
    for word in text.split_whitespace() {
        words.push(String::from_str(alloc, word)?)?;
    }
    Ok(words)
}
