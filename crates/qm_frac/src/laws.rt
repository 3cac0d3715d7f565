ghost use Rattle.std.specs.Prelude.{◌≡◌, ℕ, ◌<◌, unsigned_abs, Ok};
ghost use Rattle.std.specs.Int.{IsGcd};
ghost use Rattle.qm_math.specs.Fraction.{Fraction, IsSame};
ghost use Rattle.qm_math.specs.Arithmetic.{difference_of, product_of, quotient_of, sum_of};
ghost use Rattle.qm_frac.specs.Gcd.{gcd_of};
ghost use Rattle.qm_frac.specs.Lowest.{IsFrac};
ghost use Rattle.qm_frac.specs.Checked.{added, subtracted, multiplied, divided};

/// The greatest common divisor divides both numbers, and each common divisor divides it.
pub fn gcd_is_greatest()
    ensures { (a b : ℕ) → IsGcd a b (gcd_of a b) }
{}

/// An operation that doesn't leave has the value of the operation multiplied out.
pub fn checked_values_are_exact()
    ensures sum { (a b r : Fraction) → added a b ≡ Ok r → IsSame r (sum_of a b) }
    ensures difference { (a b r : Fraction) → subtracted a b ≡ Ok r → IsSame r (difference_of a b) }
    ensures product { (a b r : Fraction) → multiplied a b ≡ Ok r → IsSame r (product_of a b) }
    ensures quotient { (a b r : Fraction) → divided a b ≡ Ok r → IsSame r (quotient_of a b) }
{}

/// A quotient times the divisor is the number that was divided.
pub fn quotient_times_divisor()
    ensures { (a b r : Fraction) → 0 < unsigned_abs b.num → divided a b ≡ Ok r → IsSame (product_of r b) a }
{}

/// An operation on fractions of the program that doesn't leave has a fraction of the program.
pub fn checked_values_are_fractions()
    ensures sum { (a b r : Fraction) → 0 < a.den → 0 < b.den → added a b ≡ Ok r → IsFrac r }
    ensures difference { (a b r : Fraction) → 0 < a.den → 0 < b.den → subtracted a b ≡ Ok r → IsFrac r }
    ensures product { (a b r : Fraction) → 0 < a.den → 0 < b.den → multiplied a b ≡ Ok r → IsFrac r }
    ensures quotient { (a b r : Fraction) → 0 < a.den → 0 < unsigned_abs b.num → divided a b ≡ Ok r → IsFrac r }
{}
