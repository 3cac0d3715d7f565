ghost use Rattle.std.specs.Prelude.{◌≢◌, ◌↔◌, ℤ, pos, ◌+ℤ◌, ◌*ℤ◌, ◌≤ℤ◌, ◌<ℤ◌};
ghost use Rattle.qm_math.specs.Fraction.{Fraction, HasPositiveDen, whole, IsAtMost, IsBelow, IsSame};
ghost use Rattle.qm_math.specs.Arithmetic.{sum_of, negated, product_of, inverse_of, quotient_of};

/// Fractions with their sums and products form a commutative ring, up to the same number.
pub fn fractions_form_a_ring()
    ensures sum_commutes { (a b : Fraction) → IsSame (sum_of a b) (sum_of b a) }
    ensures sum_associates { (a b c : Fraction) →
        IsSame (sum_of (sum_of a b) c) (sum_of a (sum_of b c)) }
    ensures sum_with_zero { (a : Fraction) → IsSame (sum_of a (whole (pos 0))) a }
    ensures sum_with_negative { (a : Fraction) → IsSame (sum_of a (negated a)) (whole (pos 0)) }
    ensures product_commutes { (a b : Fraction) → IsSame (product_of a b) (product_of b a) }
    ensures product_associates { (a b c : Fraction) →
        IsSame (product_of (product_of a b) c) (product_of a (product_of b c)) }
    ensures product_with_one { (a : Fraction) → IsSame (product_of a (whole (pos 1))) a }
    ensures product_of_a_sum { (a b c : Fraction) →
        IsSame (product_of a (sum_of b c)) (sum_of (product_of a b) (product_of a c)) }
{}

/// A fraction times its inverse is 1, and b times a / b is a, where b is not 0.
pub fn fractions_divide()
    ensures inverse { (a : Fraction) → a.num ≢ pos 0 →
        IsSame (product_of a (inverse_of a)) (whole (pos 1)) }
    ensures positive { (a b : Fraction) → HasPositiveDen a → b.num ≢ pos 0 →
        HasPositiveDen (quotient_of a b) }
    ensures quotient { (a b : Fraction) → HasPositiveDen a → HasPositiveDen b → b.num ≢ pos 0 →
        IsSame (product_of b (quotient_of a b)) a }
{}

/// To be the same number is an equivalence among fractions with positive denominators, and each
/// operation keeps it.
pub fn the_same_fractions_give_the_same()
    ensures symmetric { (a b : Fraction) → IsSame a b → IsSame b a }
    ensures transitive { (a b c : Fraction) → HasPositiveDen b → IsSame a b → IsSame b c →
        IsSame a c }
    ensures sum { (a b c d : Fraction) → IsSame a c → IsSame b d →
        IsSame (sum_of a b) (sum_of c d) }
    ensures product { (a b c d : Fraction) → IsSame a c → IsSame b d →
        IsSame (product_of a b) (product_of c d) }
    ensures negative { (a b : Fraction) → IsSame a b → IsSame (negated a) (negated b) }
    ensures quotient { (a b c d : Fraction) → IsSame a c → IsSame b d →
        IsSame (quotient_of a b) (quotient_of c d) }
{}

/// Sums, products and negatives of fractions with positive denominators have positive denominators.
pub fn denominators_stay_positive()
    ensures sum { (a b : Fraction) → HasPositiveDen a → HasPositiveDen b →
        HasPositiveDen (sum_of a b) }
    ensures product { (a b : Fraction) → HasPositiveDen a → HasPositiveDen b →
        HasPositiveDen (product_of a b) }
    ensures negative { (a : Fraction) → HasPositiveDen a → HasPositiveDen (negated a) }
{}

/// Sums, products and orders of whole numbers are the same among the fractions.
pub fn whole_numbers_are_fractions()
    ensures sum { (a b : ℤ) → IsSame (sum_of (whole a) (whole b)) (whole (a +ℤ b)) }
    ensures product { (a b : ℤ) → IsSame (product_of (whole a) (whole b)) (whole (a *ℤ b)) }
    ensures at_most { (a b : ℤ) → IsAtMost (whole a) (whole b) ↔ (a ≤ℤ b) }
    ensures below { (a b : ℤ) → IsBelow (whole a) (whole b) ↔ (a <ℤ b) }
{}
