ghost use Rattle.std.specs.Prelude.{◌≡◌, ◌<◌, ℕ, ℤ, ◌*ℤ◌, ◌≤ℤ◌, ◌⊎◌};
ghost use Rattle.qm_math.specs.Fraction.{Fraction, IsAtMost, IsBelow, IsSame};
ghost use Rattle.qm_math.specs.Ranges.{IsBetween, greatest_product, least_product};

/// A multiple of a number of a range lies between the multiples of the two ends.
pub fn least_product_is_a_bound()
    ensures least { (k low high v : ℤ) → IsBetween low high v → least_product k low high ≤ℤ (k *ℤ v) }
    ensures greatest { (k low high v : ℤ) → IsBetween low high v → (k *ℤ v) ≤ℤ greatest_product k low high }
{}

/// Of two fractions one is below the other or they are the same; at most in both directions is the same.
pub fn fractions_compare()
    ensures either { (a b : Fraction) → IsAtMost a b ⊎ IsBelow b a }
    ensures same { (a b : Fraction) → IsAtMost a b → IsAtMost b a → IsSame a b }
{}
