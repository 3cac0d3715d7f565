use crate::memory::{numbered, sink_of, source_of};
use probe_words::{bytes_of, one_line};
use qm_io::{MemorySink, MemorySource, ReadFault, Source, Whole, read_all, write_all};
use std::alloc::{AllocError, Global};

/// What reading comes to, by the most bytes that may come, the most of one call, and the call that fails, from 1:
/// `5 2 0 "hello"`. It is `same` where just the text came.
pub fn reading_of(alloc: Global, asked: &str) -> Result<String, AllocError> {
    let Some((most, asked)) = numbered(asked) else {
        return String::from_str(alloc, "?");
    };
    match source(alloc, asked)? {
        Some((mut source, text)) => {
            let word = read_word(&read_all(alloc, &mut source, most as usize), &text);
            String::from_str(alloc, word)
        }
        None => String::from_str(alloc, "?"),
    }
}

fn read_word(answer: &Result<Whole, ReadFault>, text: &[u8]) -> &'static str {
    match answer {
        Ok(Whole::Bytes(bytes)) => {
            if bytes.as_slice() == text {
                "same"
            } else {
                "another"
            }
        }
        Ok(Whole::Longer) => "longer",
        Err(ReadFault::Read) => "failed",
        Err(ReadFault::Memory) => "memory",
    }
}

/// How many bytes each call gives, to the end of the text: `2 2 "abc"`.
pub fn calls_of(alloc: Global, asked: &str) -> Result<String, AllocError> {
    match source(alloc, asked)? {
        Some((mut source, text)) => counts(alloc, &mut source, text.len()),
        None => String::from_str(alloc, "?"),
    }
}

// No text takes more calls than it has bytes, one that fails and one that finds the end.
fn counts(alloc: Global, source: &mut MemorySource, bytes: usize) -> Result<String, AllocError> {
    let mut out = String::from_str(alloc, "calls")?;
    let mut buf = [0u8; 64];
    for _ in 0..bytes.saturating_add(2) {
        let word = match source.read(&mut buf) {
            Ok(count) => format!(in alloc; " {count}")?,
            Err(_) => String::from_str(alloc, " failed")?,
        };
        out.push_str(word.as_str())?;
    }
    Ok(out)
}

// The source of the most bytes of one call, the call that fails, and the text.
fn source(alloc: Global, asked: &str) -> Result<Option<(MemorySource, Vec<u8>)>, AllocError> {
    let Some((piece, failing, written)) = piece_and_failing(asked) else {
        return Ok(None);
    };
    match bytes_of(alloc, written)? {
        Some(text) if piece > 0 => {
            let source = source_of(alloc, &text, piece, failing).map_err(|_| AllocError)?;
            Ok(Some((source, text)))
        }
        _ => Ok(None),
    }
}

fn piece_and_failing(asked: &str) -> Option<(usize, u64, &str)> {
    let (piece, asked) = numbered(asked)?;
    let (failing, asked) = numbered(asked)?;
    Some((piece as usize, failing, asked))
}

/// What a sink took of texts, one behind the other, by the most bytes of one call and the call that fails:
/// `2 0 "hel" | "lo"`.
pub fn writing_of(alloc: Global, asked: &str) -> Result<String, AllocError> {
    match piece_and_failing(asked) {
        Some((piece, failing, texts)) if piece > 0 => {
            let mut sink = sink_of(alloc, piece, failing).map_err(|_| AllocError)?;
            let word = if write_texts(alloc, texts, &mut sink)? {
                "taken"
            } else {
                "failed"
            };
            let text = one_line(alloc, sink.bytes())?;
            format!(in alloc; "{word} {text}")
        }
        _ => String::from_str(alloc, "?"),
    }
}

// Whether each text is taken as a whole.
fn write_texts(alloc: Global, texts: &str, sink: &mut MemorySink) -> Result<bool, AllocError> {
    for written in texts.split(" | ") {
        match bytes_of(alloc, written)? {
            Some(text) if write_all(sink, &text).is_ok() => {}
            _ => return Ok(false),
        }
    }
    Ok(true)
}
