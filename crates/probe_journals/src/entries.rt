use crate::counting::enough;
use crate::lawful::first_unlawful;
use probe_words::NoAnswer;
use qm_game::Game;
use qm_io::List;
use qm_journal::{JEntry, JKind};
use std::alloc::{AllocError, Global};

/// Whether the entries are a lawful journal, and which of them is the first that may not come next; their words are those of
/// a journal's lines, as `g 0 1 / q 1 0`.
pub fn lawful_line(alloc: Global, game: &Game, words: &str) -> Result<String, NoAnswer> {
    let entries = entries_of(alloc, words)?;
    match first_unlawful(alloc, game, entries.as_slice())? {
        Some(number) => Ok(format!(in alloc; "unlawful at {number}")?),
        None => Ok(String::from_str(alloc, "lawful")?),
    }
}

/// How many entries are enough for a journal of the game.
pub fn enough_line(alloc: Global, game: &Game) -> Result<String, AllocError> {
    match enough(game) {
        Some(count) => format!(in alloc; "{count}"),
        None => String::from_str(alloc, "too many to count"),
    }
}

/// The entries, each behind a blank, as in the report of a spent budget.
pub fn entry_words(alloc: Global, entries: &[JEntry]) -> Result<String, AllocError> {
    let mut out = String::new(alloc);
    for entry in entries {
        let kind = match entry.kind {
            JKind::Game => "g",
            JKind::Query => "q",
            JKind::Step => "l",
        };
        let parent = entry.parent;
        let value = entry.value;
        let word = format!(in alloc; " {kind} {parent} {value}")?;
        out.push_str(word.as_str())?;
    }
    Ok(out)
}

fn entries_of(alloc: Global, words: &str) -> Result<List<JEntry>, NoAnswer> {
    let mut entries = List::new(alloc);
    if words.is_empty() {
        return Ok(entries);
    }
    for line in words.split(" / ") {
        entries.push(entry_of(line)?)?;
    }
    Ok(entries)
}

fn entry_of(line: &str) -> Result<JEntry, NoAnswer> {
    let (kind, rest) = line.split_once(' ').unwrap_or((line, ""));
    let (parent, value) = rest.split_once(' ').unwrap_or((rest, ""));
    match (kind_of(kind), parent.parse::<u32>(), value.parse::<i64>()) {
        (Some(kind), Ok(parent), Ok(value)) => Ok(JEntry {
            kind,
            parent,
            value,
        }),
        _ => Err(NoAnswer::Spelling),
    }
}

fn kind_of(word: &str) -> Option<JKind> {
    match word {
        "g" => Some(JKind::Game),
        "q" => Some(JKind::Query),
        "l" => Some(JKind::Step),
        _ => None,
    }
}
