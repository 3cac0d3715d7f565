ghost use Rattle.std.specs.Prelude.{◌≡◌, ◌≢◌, ◌<◌, ◌^◌, ◌∷◌, ◌++◌, unsigned_abs, MatchResult};
ghost use Rattle.qm_frac.specs.Gcd.{gcd_of};
ghost use Rattle.qm_frac.specs.Lowest.{IsInRange};
ghost use Rattle.qm_text.specs.Numbers.{SpellsFraction};
ghost use Rattle.qm_text.specs.Reading.{ReadsNumber};
ghost use Rattle.qm_text.specs.Steps.{HasNoSlash, SpellsDenominator, both_of};
ghost use Rattle.qm_text.specs.declared.fault.NumberFault.TheVariants as fault;

use crate::fault::NumberFault;
use crate::whole::{natural, plus, whole};
use memchr::memchr;
use qm_frac::{Frac, gcd};

/// The fraction that the text spells: a whole number, or `A/B` in lowest terms with a B of 2 at least. An A or a B that
/// is out of range by itself leaves, whether or not the terms are the lowest.
pub fn read_frac(text: &[u8]) -> Result<Frac, NumberFault>
    ensures { ReadsNumber (SpellsFraction text.now) IsInRange result }
{
    match memchr(b'/', text) {
        Some(at) => quotient(&text[..at], &text[at + 1..]),
        None => over_one(text),
    }
}

fn over_one(word: &[u8]) -> Result<Frac, NumberFault>
    requires { HasNoSlash word.now }
    ensures { ReadsNumber (SpellsFraction word.now) IsInRange result }
{
    lowest(whole(word)?, 1)
}

fn quotient(above: &[u8], below: &[u8]) -> Result<Frac, NumberFault>
    requires { HasNoSlash above.now }
    ensures { ReadsNumber (SpellsFraction (above.now ++ 47 ∷ below.now)) IsInRange result }
{
    let (num, den) = both(whole(above), denominator(below))?;
    lowest(num, den)
}

fn denominator(word: &[u8]) -> Result<u128, NumberFault>
    ensures { ReadsNumber (SpellsDenominator word.now) (λ n. n < 2 ^ 127) result }
{
    let n = natural(word)?;
    if n < 2 {
        return Err(NumberFault::NotNumber);
    }
    Ok(n)
}

fn both(
    num: Result<i128, NumberFault>,
    den: Result<u128, NumberFault>,
) -> Result<(i128, u128), NumberFault>
    ensures { result ≡ both_of num den }
{
    match num {
        Ok(num) => Ok((num, den?)),
        Err(NumberFault::NotNumber) => Err(NumberFault::NotNumber),
        Err(NumberFault::Leaves) => Err(den.err().unwrap_or(NumberFault::Leaves)),
    }
}

// The fraction, if these are its lowest terms.
fn lowest(num: i128, den: u128) -> Result<Frac, NumberFault>
    requires num { unsigned_abs num < 2 ^ 127 }
    requires some { 0 < den }
    requires den { den < 2 ^ 127 }
    ensures { MatchResult result
        (λ r. (r ≡ record { num = num; den = den }) × (gcd_of (unsigned_abs num) den ≡ 1))
        (λ e. (e ≡ fault.NotNumber) × (gcd_of (unsigned_abs num) den ≢ 1)) }
{
    let den = plus(den);
    if gcd(num, den) != 1 {
        return Err(NumberFault::NotNumber);
    }
    Frac::of(num, den).ok_or(NumberFault::NotNumber)
}
