ghost use Rattle.std.specs.Prelude.{◌≡◌, ◌∷◌, length, nat_lt, int_lt, IsTrue, None, Some, MatchOption};
ghost use Rattle.qm_frac.specs.Signs.{signed};
ghost use Rattle.qm_text.specs.Digits.{are_digits, numeral_value};
ghost use Rattle.qm_certread.specs.Spelling.{are_in_order, entry_row, is_before, whole_of, written, written_row};
ghost use Rattle.qm_certread.specs.WordSteps.{IsRow, IsSignedDigits, digits_before, is_counting, words_behind};

use crate::words::{cut_at, next_word};

/// A row as it is written: its kind, and the sign and the digits of its number.
#[derive(Clone, Copy)]
struct RowWord<'a> {
    kind: u8,
    minus: bool,
    digits: &'a [u8],
}

/// Whether each row stands behind the one before, by the numbers that are written, which may have any length.
pub(crate) fn are_in_order(rest: &[u8]) -> bool
    ensures { result ≡ are_in_order (words_behind rest.now) }
{
    match next_word(rest) {
        Some((first, more)) => follow(first, more),
        None => true,
    }
}

/// Whether each of the next rows stands behind the one before.
fn follow(first: &[u8], rest: &[u8]) -> bool
    ensures { result ≡ are_in_order (first.now ∷ words_behind rest.now) }
{
    let mut last = first;
    let mut rest = rest;
    while let Some((word, more)) = next_word(rest) {
        if !is_before(last, word) {
            return false;
        }
        last = word;
        rest = more;
    }
    true
}

/// Whether the first entry's row stands before the second's.
fn is_before(first: &[u8], second: &[u8]) -> bool
    ensures { result ≡ is_before (entry_row first.now) (entry_row second.now) }
{
    match written_row(first) {
        Some(a) => match written_row(second) {
            Some(b) => a.kind < b.kind || (a.kind == b.kind && is_less(a, b)),
            None => false,
        },
        None => false,
    }
}

/// The row of an entry.
fn written_row(entry: &[u8]) -> Option<RowWord<'_>>
    ensures { MatchOption result (entry_row entry.now ≡ None) (λ w. IsRow (entry_row entry.now) w.kind w.minus w.digits.now) }
{
    match cut_at(b'=', entry) {
        Some((row, _)) => row_of(row),
        None => None,
    }
}

/// The row of a word.
fn row_of(word: &[u8]) -> Option<RowWord<'_>>
    ensures { MatchOption result (written_row word.now ≡ None) (λ w. IsRow (written_row word.now) w.kind w.minus w.digits.now) }
{
    match word.split_first() {
        Some((b'r', number)) => numbered(0, number),
        Some((b'u', number)) => numbered(1, number),
        Some((b'c', number)) => numbered(2, number),
        _ => None,
    }
}

/// A row of a kind and a number.
fn numbered(kind: u8, number: &[u8]) -> Option<RowWord<'_>>
    ensures { MatchOption result (written (Some kind) (whole_of number.now) ≡ None) (λ w. IsRow (written (Some kind) (whole_of number.now)) w.kind w.minus w.digits.now) }
{
    let (minus, digits) = signed_digits(number);
    if !is_counting(digits) {
        return None;
    }
    Some(RowWord {
        kind,
        minus,
        digits,
    })
}

/// Whether a minus stands in front, and what stands behind it.
fn signed_digits(number: &[u8]) -> (bool, &[u8])
    ensures { IsSignedDigits number.now result.0 result.1.now }
{
    match number.split_first() {
        Some((b'-', digits)) => (true, digits),
        _ => (false, number),
    }
}

/// Whether the bytes are digits, and the first of them isn't 0.
fn is_counting(digits: &[u8]) -> bool
    ensures { result ≡ is_counting digits.now }
{
    !digits.is_empty() && are_digits(digits) && digits[0] != b'0'
}

/// Whether each byte is a digit.
fn are_digits(bytes: &[u8]) -> bool
    ensures { result ≡ are_digits bytes.now }
{
    bytes.iter().all(|byte| byte.is_ascii_digit())
}

/// Whether the first number is less.
fn is_less(a: RowWord<'_>, b: RowWord<'_>) -> bool
    requires a { IsTrue (is_counting a.digits.now) }
    requires b { IsTrue (is_counting b.digits.now) }
    ensures { result ≡ int_lt (signed a.entry.minus (numeral_value a.entry.digits.now)) (signed b.entry.minus (numeral_value b.entry.digits.now)) }
{
    if a.minus {
        !b.minus || is_smaller(b.digits, a.digits)
    } else {
        !b.minus && is_smaller(a.digits, b.digits)
    }
}

/// Whether the digits spell less: they are fewer, or as many with a lower one where they first differ.
fn is_smaller(a: &[u8], b: &[u8]) -> bool
    requires a { IsTrue (is_counting a.now) }
    requires b { IsTrue (is_counting b.now) }
    ensures { result ≡ nat_lt (numeral_value a.now) (numeral_value b.now) }
{
    a.len() < b.len() || (a.len() == b.len() && is_before_in_digits(a, b))
}

/// Whether the first digit that differs is lower.
fn is_before_in_digits(a: &[u8], b: &[u8]) -> bool
    requires { length a.now ≡ length b.now }
    ensures { result ≡ digits_before a.now b.now }
{
    for (i, digit) in a.iter().enumerate() {
        if *digit != b[i] {
            return *digit < b[i];
        }
    }
    false
}
