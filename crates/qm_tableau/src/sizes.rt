ghost use Rattle.std.specs.Prelude.{◌≡◌, ◌<◌, ◌≤◌, ◌^◌, ◌/◌, ◌%◌, pos, ◌*ℤ◌, ◌-ℤ◌, unsigned_abs, IfSome, IfNone};
ghost use Rattle.std.specs.Int.{◌∣◌};
ghost use Rattle.qm_frac.specs.Gcd.{gcd_of};
ghost use Rattle.qm_frac.specs.Signs.{signed};
ghost use Rattle.qm_tableau.specs.Wholes.{IsSmall};

use qm_frac::gcd;

/// The largest magnitude of a number in a row of whole numbers.
const MOST: u128 = 1 << 62;

/// The largest number of 64 bits.
const NARROW: u128 = u64::MAX as u128;

/// The product of two small numbers.
#[tactic(auto, using(crate::proofs::SmallNumbers::product_small))]
pub fn product(a: i64, b: i64) -> i128
    requires a { IsSmall a }
    requires b { IsSmall b }
    ensures value { result ≡ a *ℤ b }
    ensures size { unsigned_abs result ≤ 2 ^ 124 }
{
    i128::from(a) * i128::from(b)
}

/// The difference of two such products.
pub fn difference(x: i128, y: i128) -> i128
    requires x { unsigned_abs x ≤ 2 ^ 124 }
    requires y { unsigned_abs y ≤ 2 ^ 124 }
    ensures value { result ≡ x -ℤ y }
    ensures size { unsigned_abs result ≤ 2 ^ 125 }
{
    x - y
}

// A division of 64 bits takes a fraction of the time of one of 128.
fn quotient(a: u128, b: u128) -> u128
    requires { 0 < b }
    ensures { result ≡ a / b }
{
    if b == 1 {
        a
    } else if a <= NARROW && b <= NARROW {
        u128::from(a as u64 / b as u64)
    } else {
        a / b
    }
}

fn remainder(a: u128, b: u128) -> u128
    requires { 0 < b }
    ensures { result ≡ a % b }
{
    if a <= NARROW && b <= NARROW {
        u128::from(a as u64 % b as u64)
    } else {
        a % b
    }
}

/// The greatest common divisor of what was common so far and one more number. That is most often a multiple
/// of it, which a remainder tells in less time than a greatest common divisor.
#[tactic(auto, using(crate::proofs::Parts::gcd_by_remainder, crate::proofs::Parts::gcd_of_multiple))]
pub fn shared(common: u128, n: i128) -> u128
    requires some { 0 < common }
    requires small { common ≤ 2 ^ 125 }
    ensures { result ≡ gcd_of common (unsigned_abs n) }
{
    if common == 1 {
        return 1;
    }
    let rest = remainder(n.unsigned_abs(), common);
    if rest == 0 {
        common
    } else {
        gcd(common as i128, rest as i128)
    }
}

/// A magnitude with a sign.
fn with_sign(minus: bool, n: u128) -> i64
    requires { n ≤ 2 ^ 62 }
    ensures { result ≡ signed minus n }
{
    let n = n as i64;
    if minus { -n } else { n }
}

/// The number without a divisor, where it is small.
#[tactic(auto, using(crate::proofs::Parts::part_is, crate::proofs::Parts::part_small))]
pub fn part(n: i128, divisor: u128) -> Option<i64>
    requires some { 0 < divisor }
    requires divides { divisor ∣ unsigned_abs n }
    ensures part { IfSome result (λ q. q *ℤ pos divisor ≡ n) }
    ensures small { IfSome result IsSmall }
{
    let size = quotient(n.unsigned_abs(), divisor);
    if size > MOST {
        return None;
    }
    Some(with_sign(n < 0, size))
}

/// The number in 64 bits, where it is small.
pub fn small(n: i128) -> Option<i64>
    ensures value { IfSome result (λ q. q ≡ n) }
    ensures small { IfSome result IsSmall }
{
    if n.unsigned_abs() > MOST {
        return None;
    }
    Some(n as i64)
}
