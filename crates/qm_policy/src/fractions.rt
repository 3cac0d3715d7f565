ghost use Rattle.std.specs.Prelude.{◌≡◌, ◌^◌, ◌<◌, unsigned_abs};
ghost use Rattle.qm_math.specs.Fraction.{is_at_most, whole};

use qm_frac::Frac;
use std::cmp::Ordering;

/// The whole number as a fraction.
pub fn whole(n: i128) -> Frac
    requires { unsigned_abs n < 2 ^ 127 }
    ensures { result ≡ whole n }
{
    match Frac::of(n, 1) {
        Some(fraction) => fraction,
        None => Frac::whole(0),
    }
}

/// Whether the first is at most the second.
pub fn at_most(a: Frac, b: Frac) -> bool
    ensures { result ≡ is_at_most a b }
{
    a.cmp(b) != Ordering::Greater
}
