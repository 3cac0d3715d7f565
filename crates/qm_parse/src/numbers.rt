ghost use Rattle.qm_lex.specs.Numbers.{IsNumber};
ghost use Rattle.qm_parse.specs.Symbols.{IsValueOf};

use qm_frac::Frac;
use qm_text::read_decimal;

/// The value of a number; `None` where it is no fraction of 128 bits.
pub(crate) fn value_of(bytes: &[u8]) -> Option<Frac>
    requires { IsNumber bytes.now }
    ensures { IsValueOf bytes.now result }
{
    match read_decimal(bytes) {
        Ok(value) => Some(value),
        Err(_) => None,
    }
}
