ghost use Rattle.std.specs.Prelude.{◌≡◌, ◌<◌, ◌*◌, ◌/◌, ◌^◌, pos, ◌+ℤ◌, ◌*ℤ◌, unsigned_abs};
ghost use Rattle.std.specs.Option.{SomeIff};
ghost use Rattle.qm_frac.specs.Gcd.{gcd_of};
ghost use Rattle.qm_frac.specs.Signs.{signed};

use crate::gcds::{NARROW, common_divisor};

/// The greatest numerator and the greatest denominator.
pub(crate) const MOST: u128 = i128::MAX as u128;

/// The product of two magnitudes, where it is in range.
pub(crate) fn times(a: u128, b: u128) -> Option<u128>
    ensures { SomeIff result (a * b < 2 ^ 127) (a * b) }
{
    if a <= NARROW && b <= NARROW {
        return in_range(a * b);
    }
    match a.checked_mul(b) {
        Some(product) => in_range(product),
        None => None,
    }
}

fn in_range(n: u128) -> Option<u128>
    ensures { SomeIff result (n < 2 ^ 127) n }
{
    if n <= MOST { Some(n) } else { None }
}

/// A numerator brought over a denominator that is `by` times as great, where it is in range.
pub(crate) fn scaled(num: i128, by: u128) -> Option<i128>
    ensures { SomeIff result (unsigned_abs (num *ℤ pos by) < 2 ^ 127) (num *ℤ pos by) }
{
    let size = times(num.unsigned_abs(), by)?;
    Some(with_sign(num < 0, size))
}

/// The sum of two numerators, where it is in range.
pub(crate) fn plus(a: i128, b: i128) -> Option<i128>
    ensures { SomeIff result (unsigned_abs (a +ℤ b) < 2 ^ 127) (a +ℤ b) }
{
    match a.checked_add(b) {
        Some(i128::MIN) => None,
        sum => sum,
    }
}

/// A magnitude with a sign.
pub(crate) fn with_sign(minus: bool, n: u128) -> i128
    requires { n < 2 ^ 127 }
    ensures { result ≡ signed minus n }
{
    let n = n as i128;
    if minus { -n } else { n }
}

/// Both numbers without their greatest common divisor.
pub(crate) fn reduced(n: u128, d: u128) -> (u128, u128)
    requires { 0 < d }
    ensures num { result.0 ≡ n / gcd_of n d }
    ensures den { result.1 ≡ d / gcd_of n d }
{
    if n == 1 || d == 1 {
        return (n, d);
    }
    let divisor = common_divisor(n, d);
    if divisor == 1 {
        (n, d)
    } else {
        (quotient(n, divisor), quotient(d, divisor))
    }
}

// A division of 64 bits takes a fraction of the time of one of 128.
fn quotient(a: u128, b: u128) -> u128
    requires { 0 < b }
    ensures { result ≡ a / b }
{
    if a <= NARROW && b <= NARROW {
        u128::from(a as u64 / b as u64)
    } else {
        a / b
    }
}
