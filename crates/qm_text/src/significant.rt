ghost use Rattle.std.specs.Prelude.{◌≡◌, ◌<◌, ◌≤◌, ◌+◌, ◌-◌, ◌*◌, ◌^◌, min, length, IsTrue};
ghost use Rattle.std.specs.Char.{is_ascii_digit};
ghost use Rattle.qm_text.specs.Digits.{are_digits};
ghost use Rattle.qm_text.specs.DecimalSteps.{with_digit, with_digits};

/// What digits spell: the number without the zeros at the end, or the greatest one of 128 bits where it is above, and
/// how many zeros stand at the end.
#[derive(Clone, Copy)]
pub(crate) struct Significant {
    pub(crate) number: u128,
    pub(crate) zeros: u128,
}

/// What the digits spell, one list behind the other.
pub(crate) fn significant_digits(before: &[u8], behind: &[u8]) -> Significant
    requires before { IsTrue (are_digits before.now) }
    requires behind { IsTrue (are_digits behind.now) }
    ensures value { result ≡ with_digits (with_digits (record { number = 0; zeros = 0 }) before.now) behind.now }
    ensures few { result.zeros < 2 ^ 65 }
{
    let none = Significant {
        number: 0,
        zeros: 0,
    };
    with_digits(with_digits(none, before), behind)
}

fn with_digits(from: Significant, digits: &[u8]) -> Significant
    requires digits { IsTrue (are_digits digits.now) }
    requires few { from.zeros < 2 ^ 64 }
    ensures value { result ≡ with_digits from digits.now }
    ensures few { result.zeros ≤ from.zeros + length digits.now }
{
    let mut so_far = from;
    for digit in digits {
        so_far = with_digit(so_far, *digit);
    }
    so_far
}

fn with_digit(from: Significant, digit: u8) -> Significant
    requires digit { IsTrue (is_ascii_digit digit) }
    requires few { from.zeros < 2 ^ 65 }
    ensures value { result ≡ with_digit from digit }
    ensures few { result.zeros ≤ from.zeros + 1 }
{
    if digit == b'0' {
        return with_zero(from);
    }
    Significant {
        number: ten_to(from.zeros + 1)
            .saturating_mul(from.number)
            .saturating_add(u128::from(digit - b'0')),
        zeros: 0,
    }
}

fn with_zero(from: Significant) -> Significant
    requires few { from.zeros < 2 ^ 65 }
    ensures value { result ≡ with_digit from 48 }
    ensures few { result.zeros ≤ from.zeros + 1 }
{
    if from.number == 0 {
        from
    } else {
        Significant {
            number: from.number,
            zeros: from.zeros + 1,
        }
    }
}

/// A power of ten, or the greatest number of 128 bits where it is above.
fn ten_to(power: u128) -> u128
    ensures { result ≡ min (10 ^ power) (2 ^ 128 - 1) }
{
    if power > 38 {
        u128::MAX
    } else {
        10u128.pow(power as u32)
    }
}
