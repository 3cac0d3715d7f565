ghost use Rattle.std.specs.Prelude.{◌≡◌, Some};
ghost use Rattle.qm_certread.specs.Spelling.{as_count, as_row, count_word, entry_of, entry_said, first_of, fraction_word, multiplier_word, of_type, value_word, whole_of, with_both, written_row};
ghost use Rattle.qm_certread.specs.WordSteps.{row_number_said};

use crate::fault::{Misread, fault_of};
use crate::words::cut_at;
use qm_frac::Frac;
use qm_model::RowId;
use qm_text::{read_frac, read_whole};
use qm_trees::Entry;

/// A value of a variable.
pub(crate) fn value_word(word: &[u8]) -> Result<i64, Misread>
    ensures { result ≡ value_word word.now }
{
    match read_whole(word) {
        Ok(n) => Ok(n),
        Err(fault) => Err(fault_of(fault)),
    }
}

/// A count.
pub(crate) fn count_word(word: &[u8]) -> Result<u32, Misread>
    ensures { result ≡ count_word word.now }
{
    match read_whole(word) {
        Ok(n) => count_of(n),
        Err(fault) => Err(fault_of(fault)),
    }
}

/// The number as a count.
fn count_of(n: i64) -> Result<u32, Misread>
    ensures { result ≡ of_type as_count (Some n) }
{
    match u32::try_from(n) {
        Ok(n) => Ok(n),
        Err(_) => Err(Misread::Number),
    }
}

/// A fraction.
pub(crate) fn fraction_word(word: &[u8]) -> Result<Frac, Misread>
    ensures { result ≡ fraction_word word.now }
{
    match read_frac(word) {
        Ok(a) => Ok(a),
        Err(fault) => Err(fault_of(fault)),
    }
}

/// A number above 0: the word of no other one begins with a minus or a zero.
fn multiplier_word(word: &[u8]) -> Result<Frac, Misread>
    ensures { result ≡ multiplier_word word.now }
{
    match word.first() {
        Some(b'-') => Err(Misread::Text),
        Some(b'0') => Err(Misread::Text),
        _ => fraction_word(word),
    }
}

/// A row's number among its kind, counted from 0.
#[tactic(auto, using(crate::proofs::RowsSaid::row_zero, crate::proofs::RowsSaid::row_some, crate::proofs::RowsSaid::row_err))]
fn row_number(word: &[u8]) -> Result<u32, Misread>
    ensures { result ≡ row_number_said (whole_of word.now) }
{
    let n = count_word(word)?;
    if n == 0 {
        return Err(Misread::Text);
    }
    Ok(n - 1)
}

/// A row.
#[tactic(auto, using(crate::proofs::RowsSaid::row_said))]
fn row_word(word: &[u8]) -> Result<RowId, Misread>
    ensures { result ≡ of_type as_row (written_row word.now) }
{
    match word.split_first() {
        Some((b'r', number)) => Ok(RowId::Row(row_number(number)?)),
        Some((b'u', number)) => Ok(RowId::Uncertain(row_number(number)?)),
        Some((b'c', number)) => Ok(RowId::Cut(row_number(number)?)),
        _ => Err(Misread::Text),
    }
}

/// An entry, if both its parts say something.
fn entry_of(row: Result<RowId, Misread>, by: Result<Frac, Misread>) -> Result<Entry, Misread>
    ensures { result ≡ with_both entry_of row by }
{
    match (row, by) {
        (Ok(row), Ok(by)) => Ok(Entry { row, by }),
        (Ok(_), Err(fault)) => Err(fault),
        (Err(fault), Ok(_)) => Err(fault),
        (Err(first), Err(second)) => Err(first_of(first, second)),
    }
}

/// The fault of several words: one that is misspelt comes first.
pub(crate) fn first_of(first: Misread, second: Misread) -> Misread
    ensures { result ≡ first_of first second }
{
    match second {
        Misread::Text => Misread::Text,
        Misread::Number => first,
    }
}

/// `ROW=MULTIPLIER`.
pub(crate) fn entry_word(word: &[u8]) -> Result<Entry, Misread>
    ensures { result ≡ entry_said word.now }
{
    match cut_at(b'=', word) {
        Some((row, by)) => entry_of(row_word(row), multiplier_word(by)),
        None => Err(Misread::Text),
    }
}
