use crate::shown::fraction_text;
use qm_frac::Frac;
use qm_game::{Range, RowId};
use std::alloc::{AllocError, Global};

/// The row's letter, and its number counted from 1.
pub fn row_word(alloc: Global, row: RowId) -> Result<String, AllocError> {
    match row {
        RowId::Row(number) => counted(alloc, "r", number),
        RowId::Uncertain(number) => counted(alloc, "u", number),
        RowId::Cut(number) => counted(alloc, "c", number),
    }
}

/// A letter, and a number that is counted from 1.
pub fn counted(alloc: Global, letter: &str, number: u32) -> Result<String, AllocError> {
    let number = u64::from(number) + 1;
    format!(in alloc; "{letter}{number}")
}

/// The fractions, each behind a blank.
pub fn fraction_words(alloc: Global, fractions: &[Frac]) -> Result<String, AllocError> {
    let mut out = String::new(alloc);
    for value in fractions {
        out.push(' ')?;
        out.push_str(fraction_text(alloc, *value)?.as_str())?;
    }
    Ok(out)
}

/// The numbers, each behind a blank.
pub fn number_words(alloc: Global, numbers: &[i64]) -> Result<String, AllocError> {
    let mut out = String::new(alloc);
    for number in numbers {
        let word = format!(in alloc; " {number}")?;
        out.push_str(word.as_str())?;
    }
    Ok(out)
}

/// The ranges, each behind a blank.
pub fn range_words(alloc: Global, ranges: &[Range]) -> Result<String, AllocError> {
    let mut out = String::new(alloc);
    for range in ranges {
        out.push(' ')?;
        out.push_str(range_word(alloc, *range)?.as_str())?;
    }
    Ok(out)
}

pub fn range_word(alloc: Global, range: Range) -> Result<String, AllocError> {
    let low = range.low;
    let high = range.high;
    format!(in alloc; "{low}..{high}")
}
