ghost use Rattle.std.specs.Prelude.{◌≡◌};
ghost use Rattle.qm_math.specs.Fraction.{is_below};

use qm_frac::Frac;
use std::cmp::Ordering;

/// Whether the first is below the second.
pub fn is_less(a: Frac, b: Frac) -> bool
    ensures { result ≡ is_below a b }
{
    a.cmp(b) == Ordering::Less
}
