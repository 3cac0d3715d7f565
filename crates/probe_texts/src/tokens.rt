use probe_words::bytes_of;
use qm_lex::{LexFault, Token, tokens};
use std::alloc::{AllocError, Global};

/// The most bytes of a text that has tokens.
const MOST: usize = 0x7FFF_FFFF;

/// The tokens of a text: the kind, the start and the end of each; or the place of the first byte that begins none.
pub fn tokens_of(alloc: Global, written: &str) -> Result<String, AllocError> {
    match bytes_of(alloc, written)? {
        Some(text) => told(alloc, &text),
        None => String::from_str(alloc, "?"),
    }
}

fn told(alloc: Global, text: &[u8]) -> Result<String, AllocError> {
    if text.len() > MOST {
        return String::from_str(alloc, "?");
    }
    match tokens(alloc, text) {
        Ok(tokens) => listed(alloc, tokens.as_slice()),
        Err(LexFault::BadByte(place)) => {
            let line = place.line;
            let column = place.column;
            format!(in alloc; "byte {line} {column}")
        }
        Err(LexFault::Memory) => String::from_str(alloc, "memory"),
    }
}

fn listed(alloc: Global, tokens: &[Token]) -> Result<String, AllocError> {
    let mut out = String::from_str(alloc, "tokens")?;
    for token in tokens {
        let kind = token.kind;
        let start = token.start;
        let end = token.end;
        let word = format!(in alloc; " {kind:?} {start} {end}")?;
        out.push_str(word.as_str())?;
    }
    Ok(out)
}
