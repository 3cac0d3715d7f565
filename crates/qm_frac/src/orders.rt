ghost use Rattle.std.specs.Prelude.{◌≡◌, ◌<◌, ◌*◌, pos, ◌*ℤ◌};
ghost use Rattle.std.specs.Ordering.{nat_cmp, int_cmp};

use std::cmp::Ordering;

/// The order of a / b and c / d.
pub(crate) fn order_of(a: i128, b: u128, c: i128, d: u128) -> Ordering
    requires left { 0 < b }
    requires right { 0 < d }
    ensures { result ≡ int_cmp (a *ℤ pos d) (c *ℤ pos b) }
{
    match (a < 0, c < 0) {
        (false, false) => order_of_products(a.unsigned_abs(), d, c.unsigned_abs(), b),
        (false, true) => Ordering::Greater,
        (true, false) => Ordering::Less,
        (true, true) => order_of_products(c.unsigned_abs(), b, a.unsigned_abs(), d),
    }
}

// The order of a * d and c * b, each product in two halves of 128 bits.
fn order_of_products(a: u128, d: u128, c: u128, b: u128) -> Ordering
    ensures { result ≡ nat_cmp (a * d) (c * b) }
{
    let (left_low, left_high) = a.carrying_mul(d, 0);
    let (right_low, right_high) = c.carrying_mul(b, 0);
    match left_high.cmp(&right_high) {
        Ordering::Equal => left_low.cmp(&right_low),
        unequal => unequal,
    }
}
