ghost use Rattle.std.specs.Prelude.{◌≡◌, length};
ghost use Rattle.qm_certread.specs.Spelling.{each, each_of, entry_said, fraction_word, value_word};
ghost use Rattle.qm_certread.specs.WordSteps.{Gives, words_behind};

use crate::fault::{Misread, Unread};
use crate::spelling::{entry_word, fraction_word, value_word};
use crate::words::next_word;
use qm_frac::Frac;
use qm_io::List;
use qm_trees::Entry;
use std::alloc::Global;

/// What a word says.
pub trait Spoken: Sized {
    ghost use Rattle.std.specs.Prelude.{◌≡◌, ℕ, List, Result};
    ghost use Rattle.qm_certread.specs.declared.fault.Misread.{Misread};

    ghost word_says: { List ℕ → Result Self Misread };

    fn said(word: &[u8]) -> Result<Self, Misread>
        ensures { result ≡ word_says word.now };
}

impl Spoken for i64 {
    ghost word_says = { value_word };

    fn said(word: &[u8]) -> Result<i64, Misread> {
        value_word(word)
    }
}

impl Spoken for Frac {
    ghost word_says = { fraction_word };

    fn said(word: &[u8]) -> Result<Frac, Misread> {
        fraction_word(word)
    }
}

impl Spoken for Entry {
    ghost word_says = { entry_said };

    fn said(word: &[u8]) -> Result<Entry, Misread> {
        entry_word(word)
    }
}

/// What each of the words says.
pub(crate) fn each<T: Spoken + Drop>(alloc: Global, rest: &[u8]) -> Result<List<T>, Unread>
    ensures { Gives result (each T.word_says (words_behind rest.now)) }
{
    let mut items = List::new(alloc);
    let mut outside = false;
    let mut rest = rest;
    while let Some((word, more)) = next_word(rest) {
        match T::said(word) {
            Ok(item) => items.push(item)?,
            Err(Misread::Text) => return Err(Unread::Misread(Misread::Text)),
            Err(Misread::Number) => outside = true,
        }
        rest = more;
    }
    if outside {
        return Err(Unread::Misread(Misread::Number));
    }
    Ok(items)
}

/// How many words there are.
fn count_words(rest: &[u8]) -> usize
    ensures { result ≡ length (words_behind rest.now) }
{
    let mut count = 0;
    let mut rest = rest;
    while let Some((_, more)) = next_word(rest) {
        count += 1;
        rest = more;
    }
    count
}

/// What each of just so many words says.
pub(crate) fn each_of<T: Spoken + Drop>(
    alloc: Global,
    count: usize,
    rest: &[u8],
) -> Result<List<T>, Unread>
    ensures { Gives result (each_of T.word_says count (words_behind rest.now)) }
{
    if count_words(rest) != count {
        return Err(Unread::Misread(Misread::Text));
    }
    each(alloc, rest)
}
