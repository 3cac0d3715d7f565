ghost use Rattle.std.specs.Prelude.{◌≡◌, ◌≢◌, ◌<◌, ◌^◌, ◌∷◌, pos, neg_ℤ, unsigned_abs, slice_index, FitsSigned};
ghost use Rattle.std.specs.Int.{w64};
ghost use Rattle.qm_text.specs.Numbers.{SpellsNatural, SpellsWhole};
ghost use Rattle.qm_text.specs.Reading.{ReadsNumber};

use crate::digits::{is_plain_numeral, numeral_value};
use crate::fault::NumberFault;

/// The whole number that the text spells: digits without a leading zero, a minus before them where it is below 0.
pub fn read_whole(text: &[u8]) -> Result<i64, NumberFault>
    ensures { ReadsNumber (SpellsWhole text.now) (FitsSigned w64) result }
{
    narrow(whole(text)?)
}

/// The same, of 128 bits but for the least number of these.
pub(crate) fn whole(word: &[u8]) -> Result<i128, NumberFault>
    ensures { ReadsNumber (SpellsWhole word.now) (λ n. unsigned_abs n < 2 ^ 127) result }
{
    match word.split_first() {
        Some((b'-', digits)) => below_zero(digits),
        _ => not_below_zero(word),
    }
}

/// The number that digits without a leading zero spell, below 2^127.
pub(crate) fn natural(word: &[u8]) -> Result<u128, NumberFault>
    ensures { ReadsNumber (SpellsNatural word.now) (λ n. n < 2 ^ 127) result }
{
    if !is_plain_numeral(word) {
        return Err(NumberFault::NotNumber);
    }
    let n = numeral_value(word);
    if n > i128::MAX as u128 {
        return Err(NumberFault::Leaves);
    }
    Ok(n)
}

// The number of a minus and these digits. There is no -0.
fn below_zero(digits: &[u8]) -> Result<i128, NumberFault>
    ensures { ReadsNumber (SpellsWhole (45 ∷ digits.now)) (λ n. unsigned_abs n < 2 ^ 127) result }
{
    let n = natural(digits)?;
    if n == 0 {
        return Err(NumberFault::NotNumber);
    }
    Ok(minus(n))
}

fn not_below_zero(word: &[u8]) -> Result<i128, NumberFault>
    requires { slice_index word.now 0 ≢ 45 }
    ensures { ReadsNumber (SpellsWhole word.now) (λ n. unsigned_abs n < 2 ^ 127) result }
{
    Ok(plus(natural(word)?))
}

/// The number with a sign.
pub(crate) fn plus(n: u128) -> i128
    requires { n < 2 ^ 127 }
    ensures { result ≡ pos n }
{
    n as i128
}

fn minus(n: u128) -> i128
    requires { n < 2 ^ 127 }
    ensures { result ≡ neg_ℤ (pos n) }
{
    -(n as i128)
}

// The number in 64 bits.
fn narrow(n: i128) -> Result<i64, NumberFault>
    ensures { ReadsNumber (λ m. m ≡ n) (FitsSigned w64) result }
{
    i64::try_from(n).map_err(|_| NumberFault::Leaves)
}
