ghost use Rattle.std.specs.Prelude.{ℕ, List, All};
ghost use Rattle.qm_math.specs.Fraction.{Fraction, IsAtMost};
ghost use Rattle.qm_math.specs.Arithmetic.{product_of};
ghost use Rattle.qm_math.specs.Totals.{total_of};
ghost use Rattle.qm_math.specs.Combinations.{dot_product};
ghost use Rattle.qm_math.specs.Ends.{IsWithin, least_multiple, greatest_multiple};

/// A multiple of a fraction between two ends lies between the least and the greatest multiple of
/// the ends.
pub fn multiples_lie_between_the_ends()
    ensures least { (k low high v : Fraction) → IsWithin low high v →
        IsAtMost (least_multiple k low high) (product_of k v) }
    ensures greatest { (k low high v : Fraction) → IsWithin low high v →
        IsAtMost (product_of k v) (greatest_multiple k low high) }
{}

/// A row's value at x in a box lies between the sums of its least and of its greatest multiples.
pub fn values_over_a_box_lie_between_the_ends()
    ensures least { (columns : List ℕ) (k low high x : ℕ → Fraction) →
        All (λ c. IsWithin (low c) (high c) (x c)) columns →
        IsAtMost (total_of (λ c. least_multiple (k c) (low c) (high c)) columns)
        (dot_product columns k x) }
    ensures greatest { (columns : List ℕ) (k low high x : ℕ → Fraction) →
        All (λ c. IsWithin (low c) (high c) (x c)) columns →
        IsAtMost (dot_product columns k x)
        (total_of (λ c. greatest_multiple (k c) (low c) (high c)) columns) }
{}
