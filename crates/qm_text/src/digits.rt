ghost use Rattle.std.specs.Prelude.{◌≡◌, ◌+◌, ◌-◌, ◌*◌, ◌^◌, min, IsTrue};
ghost use Rattle.std.specs.Char.{is_ascii_digit};
ghost use Rattle.qm_text.specs.Digits.{are_digits, is_plain_numeral, numeral_value};

/// Whether each byte is a digit.
pub(crate) fn are_digits(bytes: &[u8]) -> bool
    ensures { result ≡ are_digits bytes.now }
{
    bytes.iter().all(|byte| byte.is_ascii_digit())
}

/// Whether the bytes are digits, one at least, without a leading zero.
pub(crate) fn is_plain_numeral(bytes: &[u8]) -> bool
    ensures { result ≡ is_plain_numeral bytes.now }
{
    !bytes.is_empty() && are_digits(bytes) && (bytes.len() == 1 || bytes[0] != b'0')
}

/// The number that digits spell, or the greatest one of 128 bits where they spell more.
pub(crate) fn numeral_value(digits: &[u8]) -> u128
    requires { IsTrue (are_digits digits.now) }
    ensures { result ≡ min (numeral_value digits.now) (2 ^ 128 - 1) }
{
    let mut n: u128 = 0;
    for digit in digits {
        n = with_digit(n, *digit);
    }
    n
}

/// The number with one digit more.
fn with_digit(n: u128, digit: u8) -> u128
    requires { IsTrue (is_ascii_digit digit) }
    ensures { result ≡ min (n * 10 + (digit - 48)) (2 ^ 128 - 1) }
{
    n.saturating_mul(10)
        .saturating_add(u128::from(digit - b'0'))
}
