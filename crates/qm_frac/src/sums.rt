ghost use Rattle.std.specs.Prelude.{◌≡◌};
ghost use Rattle.std.specs.Option.{SomeIff};
ghost use Rattle.qm_frac.specs.Arithmetic.{SumFits, sum};

use crate::frac::{Frac, lowest_of, over_one};
use crate::numbers::{plus, reduced, scaled, times};

/// The sum, where the steps to it stay in range.
#[inline]
pub(crate) fn total(a: Frac, b: Frac) -> Option<Frac>
    ensures { SomeIff result (SumFits a b) (sum a b) }
{
    if a.den() == b.den() {
        total_over_one_den(a, b)
    } else if a.num() == 0 {
        Some(b)
    } else if b.num() == 0 {
        Some(a)
    } else {
        total_over_common_den(a, b)
    }
}

// With one denominator, as that of whole numbers, nothing is multiplied.
#[inline]
fn total_over_one_den(a: Frac, b: Frac) -> Option<Frac>
    requires { a.den ≡ b.den }
    ensures { SomeIff result (SumFits a b) (sum a b) }
{
    let (left, den) = a.parts();
    let (right, _) = b.parts();
    let num = plus(left, right)?;
    if den == 1 {
        Some(over_one(num))
    } else {
        lowest_of(num < 0, num.unsigned_abs(), den)
    }
}

#[inline(never)]
fn total_over_common_den(a: Frac, b: Frac) -> Option<Frac>
    ensures { SomeIff result (SumFits a b) (sum a b) }
{
    let (left_num, left_den) = a.parts();
    let (right_num, right_den) = b.parts();
    let (left_part, right_part) = reduced(left_den, right_den);
    let common = times(left_den, right_part)?;
    let left = scaled(left_num, right_part)?;
    let right = scaled(right_num, left_part)?;
    let num = plus(left, right)?;
    lowest_of(num < 0, num.unsigned_abs(), common)
}
