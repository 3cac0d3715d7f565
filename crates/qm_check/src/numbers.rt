ghost use Rattle.std.specs.Prelude.{◌≡◌};
ghost use Rattle.qm_math.specs.Fraction.{is_at_most, is_below};

use qm_frac::Frac;
use std::cmp::Ordering;

pub(crate) fn is_below(a: Frac, b: Frac) -> bool
    ensures { result ≡ is_below a b }
{
    a.cmp(b) == Ordering::Less
}

pub(crate) fn is_at_most(a: Frac, b: Frac) -> bool
    ensures { result ≡ is_at_most a b }
{
    a.cmp(b) != Ordering::Greater
}
