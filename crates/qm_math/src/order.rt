ghost use Rattle.std.specs.Prelude.{◌↔◌, pos};
ghost use Rattle.qm_math.specs.Fraction.{Fraction, HasPositiveDen, whole, IsAtMost, IsBelow, IsSame};
ghost use Rattle.qm_math.specs.Arithmetic.{sum_of, negated, product_of, quotient_of};

/// The order of fractions is transitive; sums and products with what is not negative keep it,
/// negatives turn it round.
pub fn orders_of_fractions_are_kept()
    ensures transitive { (a b c : Fraction) → HasPositiveDen b → IsAtMost a b → IsAtMost b c →
        IsAtMost a c }
    ensures same { (a b : Fraction) → IsSame a b → IsAtMost a b }
    ensures not_both { (a b : Fraction) → IsAtMost a b → IsBelow b a → ⊥ }
    ensures sum { (a b c d : Fraction) → IsAtMost a c → IsAtMost b d →
        IsAtMost (sum_of a b) (sum_of c d) }
    ensures negative { (a b : Fraction) → IsAtMost a b → IsAtMost (negated b) (negated a) }
    ensures product { (k a b : Fraction) → IsAtMost (whole (pos 0)) k → IsAtMost a b →
        IsAtMost (product_of k a) (product_of k b) }
    ensures turned { (k a b : Fraction) → IsAtMost k (whole (pos 0)) → IsAtMost a b →
        IsAtMost (product_of k b) (product_of k a) }
{}

/// Strict orders are transitive; sums and products with a positive number keep them, negatives turn
/// them round.
pub fn strict_orders_of_fractions_are_kept()
    ensures transitive { (a b c : Fraction) → HasPositiveDen b → HasPositiveDen c → IsBelow a b →
        IsBelow b c → IsBelow a c }
    ensures sum { (a b c d : Fraction) → HasPositiveDen b → HasPositiveDen d → IsBelow a c →
        IsAtMost b d → IsBelow (sum_of a b) (sum_of c d) }
    ensures negative { (a b : Fraction) → IsBelow a b → IsBelow (negated b) (negated a) }
    ensures product { (k a b : Fraction) → HasPositiveDen k → IsBelow (whole (pos 0)) k →
        IsBelow a b → IsBelow (product_of k a) (product_of k b) }
{}

/// An order is divided by a positive number, and turned round by a negative one.
pub fn orders_of_fractions_are_divided()
    ensures above { (k x b : Fraction) → HasPositiveDen k → HasPositiveDen x → HasPositiveDen b →
        IsBelow (whole (pos 0)) k → IsAtMost (product_of k x) b ↔ IsAtMost x (quotient_of b k) }
    ensures below { (k x b : Fraction) → HasPositiveDen k → HasPositiveDen x → HasPositiveDen b →
        IsBelow (whole (pos 0)) k → IsAtMost b (product_of k x) ↔ IsAtMost (quotient_of b k) x }
    ensures above_turned { (k x b : Fraction) → HasPositiveDen k → HasPositiveDen x →
        HasPositiveDen b → IsBelow k (whole (pos 0)) →
        IsAtMost (product_of k x) b ↔ IsAtMost (quotient_of b k) x }
    ensures below_turned { (k x b : Fraction) → HasPositiveDen k → HasPositiveDen x →
        HasPositiveDen b → IsBelow k (whole (pos 0)) →
        IsAtMost b (product_of k x) ↔ IsAtMost x (quotient_of b k) }
{}
