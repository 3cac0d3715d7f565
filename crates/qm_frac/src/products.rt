ghost use Rattle.std.specs.Option.{SomeIff};
ghost use Rattle.qm_frac.specs.Arithmetic.{product};
ghost use Rattle.qm_frac.specs.Lowest.{IsInRange};

use crate::frac::{Frac, made};
use crate::numbers::{reduced, times};

/// The product, where its lowest terms are in range. Common divisors are taken out crosswise first, so
/// that what is multiplied out is in lowest terms.
pub(crate) fn crossed(a: Frac, b: Frac) -> Option<Frac>
    ensures { SomeIff result (IsInRange (product a b)) (product a b) }
{
    let (left_num, left_den) = a.parts();
    let (right_num, right_den) = b.parts();
    let (n, e) = reduced(left_num.unsigned_abs(), right_den);
    let (m, d) = reduced(right_num.unsigned_abs(), left_den);
    let num = times(n, m)?;
    let den = times(d, e)?;
    Some(made((left_num < 0) != (right_num < 0), num, den))
}
