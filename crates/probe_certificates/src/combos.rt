ghost use Rattle.std.specs.Prelude.{◌∷◌, ◌++◌, [], All, IsSome, IsTrue, pos};
ghost use Rattle.qm_model.specs.declared.game.Problem.{Problem};
ghost use Rattle.qm_math.specs.Fraction.{IsBelow, whole};
ghost use Rattle.qm_trees.specs.Entries.{AreEntries, IsBefore, IsPositive, row_named};
ghost use Rattle.qm_trees.specs.RefuteRight.{AreNamed};

use probe_words::NoAnswer;
use qm_frac::Frac;
use qm_game::{Game, Row, RowId};
use qm_text::read_frac;
use qm_trees::{Combo, Entry};
use std::alloc::Global;

/// The combination of words as behind `close` in certificates: `o` for the objective, and entries such as `r2=1/3`; a
/// cut is named `c1`.
pub fn combo_of(alloc: Global, words: &str) -> Result<Combo, NoAnswer> {
    let (objective, words) = match words.strip_prefix("o") {
        Some(words) => (true, words),
        None => (false, words),
    };
    let mut combo = Combo::new(alloc, objective);
    for word in words.split(' ') {
        if !word.is_empty() {
            push_word(&mut combo, word)?;
        }
    }
    Ok(combo)
}

fn push_word(combo: &mut Combo, word: &str) -> Result<(), NoAnswer> {
    let entry = read_entry(word).ok_or(NoAnswer::Spelling)?;
    if !follows(combo.entries(), &entry) {
        return Err(NoAnswer::Entry);
    }
    combo.push(entry)?;
    Ok(())
}

fn read_entry(word: &str) -> Option<Entry> {
    let (row, by) = word.split_once('=')?;
    Some(Entry {
        row: read_row(row)?,
        by: read_frac(by.as_bytes()).ok()?,
    })
}

fn read_row(word: &str) -> Option<RowId> {
    if let Some(number) = word.strip_prefix("r") {
        return Some(RowId::Row(read_number(number)?));
    }
    if let Some(number) = word.strip_prefix("u") {
        return Some(RowId::Uncertain(read_number(number)?));
    }
    Some(RowId::Cut(read_number(word.strip_prefix("c")?)?))
}

/// A number from 0 that is written from 1 on.
pub fn read_number(word: &str) -> Option<u32> {
    word.parse::<u32>().ok()?.checked_sub(1)
}

// Whether the entry may stand behind the others.
fn follows(entries: &[Entry], entry: &Entry) -> bool
    requires { AreEntries entries.now }
    ensures { IsTrue result → AreEntries (entries.now ++ entry.now ∷ []) }
{
    is_positive(entry) && are_before(entries, entry.row)
}

fn are_before(entries: &[Entry], row: RowId) -> bool
    ensures { IsTrue result → All (λ e. IsBefore e.row row) entries.now }
{
    for entry in entries {
        if !is_before(entry.row, row) {
            return false;
        }
    }
    true
}

fn is_positive(entry: &Entry) -> bool
    ensures { IsTrue result → IsPositive entry.now }
{
    entry.by.num() > 0
}

fn is_before(left: RowId, right: RowId) -> bool
    ensures { IsTrue result → IsBefore left right }
{
    match (left, right) {
        (RowId::Row(m), RowId::Row(n)) => m < n,
        (RowId::Row(_), RowId::Uncertain(_)) => true,
        (RowId::Row(_), RowId::Cut(_)) => true,
        (RowId::Uncertain(m), RowId::Uncertain(n)) => m < n,
        (RowId::Uncertain(_), RowId::Cut(_)) => true,
        (RowId::Cut(m), RowId::Cut(n)) => m < n,
        _ => false,
    }
}

fn is_there(game: &Game, cuts: &[Row], row: RowId) -> bool
    ensures { IsTrue result → IsSome (row_named game.now cuts.now row) }
{
    let problem = game.problem();
    match row {
        RowId::Row(number) => (number as usize) < problem.rows.len(),
        RowId::Uncertain(number) => (number as usize) < problem.urows.len(),
        RowId::Cut(number) => (number as usize) < cuts.len(),
    }
}

/// Whether each row that the entries name is there.
pub fn are_named(game: &Game, cuts: &[Row], entries: &[Entry]) -> bool
    ensures { IsTrue result → AreNamed game.now cuts.now entries.now }
{
    for entry in entries {
        if !is_there(game, cuts, entry.row) {
            return false;
        }
    }
    true
}
