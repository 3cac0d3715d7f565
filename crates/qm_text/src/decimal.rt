ghost use Rattle.std.specs.Prelude.{◌≡◌, ◌++◌, ℕ, ℤ, List, IsTrue, MatchOption};
ghost use Rattle.memchr.specs.Find.{is_byte2};
ghost use Rattle.qm_frac.specs.Signs.{signed};
ghost use Rattle.qm_text.specs.Digits.{are_digits, is_numeral, numeral_value};
ghost use Rattle.qm_text.specs.Decimals.{Decimal, SpellsDecimal, SpellsDigits, SpellsExponent, SpellsPower, Stays, decimal_value};
ghost use Rattle.qm_text.specs.Reading.{Reads};
ghost use Rattle.qm_text.specs.DecimalSteps.{IsCut, IsExponentCut, IsFrom, IsSigned, IsValue, decimal_of};

use crate::digits::{are_digits, numeral_value};
use crate::fault::NumberFault;
use crate::significant::significant_digits;
use crate::tens::{TOO_LONG, with_tens};
use memchr::{memchr, memchr2};
use qm_frac::Frac;

/// The number that the text spells: digits with a point or without one, then an exponent or nothing. It leaves where it
/// has more than 38 digits but for the zeros in front and at the end, or where its value isn't a fraction of the program.
pub fn read_decimal(text: &[u8]) -> Result<Frac, NumberFault>
    ensures { Reads (SpellsDecimal text.now) Stays decimal_value result }
{
    match spelled(text) {
        Some(parts) => value(parts),
        None => Err(NumberFault::NotNumber),
    }
}

/// The digits of a decimal before the point and behind it, the sign of its exponent and the digits of that one.
#[derive(Clone, Copy)]
struct Parts<'a> {
    before: &'a [u8],
    behind: &'a [u8],
    minus: bool,
    power: &'a [u8],
}

fn spelled(text: &[u8]) -> Option<Parts<'_>>
    ensures { MatchOption result ((d : Decimal) → ¬ SpellsDecimal text.now d)
        (λ p. SpellsDecimal text.now (decimal_of p.before.now p.behind.now p.minus p.power.now) × IsTrue (are_digits p.power.now)) }
{
    let (front, back) = cut_at_exponent(text);
    let (before, behind) = digits(front)?;
    let (minus, power) = exponent(back)?;
    Some(Parts {
        before,
        behind,
        minus,
        power,
    })
}

// What stands before the first `e` or `E`, and the rest.
fn cut_at_exponent(text: &[u8]) -> (&[u8], &[u8])
    ensures { IsExponentCut text.now result.0.now result.1.now }
{
    text.split_at(memchr2(b'e', b'E', text).unwrap_or(text.len()))
}

fn digits(front: &[u8]) -> Option<(&[u8], &[u8])>
    ensures { MatchOption result ((before behind : List ℕ) → ¬ SpellsDigits front.now before behind)
        (λ x. SpellsDigits front.now x.0.now x.1.now) }
{
    let (before, behind) = cut_at_point(front);
    if !are_some_digits(before, behind) {
        return None;
    }
    Some((before, behind))
}

// Whether two words have digits alone, one at least.
#[tactic(auto, using(crate::proofs::Spellings::numeral_join))]
fn are_some_digits(before: &[u8], behind: &[u8]) -> bool
    ensures { result ≡ is_numeral (before.now ++ behind.now) }
{
    !(before.is_empty() && behind.is_empty()) && (are_digits(before) && are_digits(behind))
}

// What stands before the first point and behind it.
fn cut_at_point(front: &[u8]) -> (&[u8], &[u8])
    ensures { IsCut front.now result.0.now result.1.now }
{
    match memchr(b'.', front) {
        Some(at) => (&front[..at], &front[at + 1..]),
        None => (front, &front[front.len()..]),
    }
}

// Whether the exponent is below 0, and its digits; none, where there is no exponent.
fn exponent(back: &[u8]) -> Option<(bool, &[u8])>
    requires { IsFrom (is_byte2 101 69) back.now }
    ensures { MatchOption result ((n : ℤ) → ¬ SpellsExponent back.now n)
        (λ x. SpellsExponent back.now (signed x.0 (numeral_value x.1.now)) × IsTrue (are_digits x.1.now)) }
{
    match back.split_first() {
        Some((_, word)) => power(word),
        None => Some((false, back)),
    }
}

fn power(word: &[u8]) -> Option<(bool, &[u8])>
    ensures { MatchOption result ((n : ℤ) → ¬ SpellsPower word.now n)
        (λ x. SpellsPower word.now (signed x.0 (numeral_value x.1.now)) × IsTrue (are_digits x.1.now)) }
{
    let (minus, digits) = sign(word);
    if digits.is_empty() || !are_digits(digits) {
        return None;
    }
    Some((minus, digits))
}

// Whether a minus stands in front, and what stands behind the sign.
fn sign(word: &[u8]) -> (bool, &[u8])
    ensures { IsSigned word.now result.0 result.1.now }
{
    match word.split_first() {
        Some((b'-', digits)) => (true, digits),
        Some((b'+', digits)) => (false, digits),
        _ => (false, word),
    }
}

fn value(parts: Parts) -> Result<Frac, NumberFault>
    requires before { IsTrue (are_digits parts.before.now) }
    requires behind { IsTrue (are_digits parts.behind.now) }
    requires power { IsTrue (are_digits parts.power.now) }
    ensures { IsValue (decimal_of parts.entry.before.now parts.entry.behind.now parts.entry.minus parts.entry.power.now) result }
{
    let digits = significant_digits(parts.before, parts.behind);
    if digits.number >= TOO_LONG {
        return Err(NumberFault::Leaves);
    }
    let below = parts.behind.len() as u128;
    let power = numeral_value(parts.power);
    if parts.minus {
        with_tens(digits.number, digits.zeros, below.saturating_add(power))
    } else {
        with_tens(digits.number, digits.zeros.saturating_add(power), below)
    }
}
