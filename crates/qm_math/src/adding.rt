ghost use Rattle.std.specs.Prelude.{◌≡◌, ◌<◌, ◌↔◌, ℕ, ℤ, ◌+ℤ◌, ◌*ℤ◌, ◌≤ℤ◌, ◌++◌, List, map, filter, All, Bool, false, pos};
ghost use Rattle.std.specs.List.{AllZip};
ghost use Rattle.qm_math.specs.Fraction.{Fraction, HasPositiveDen, whole, IsAtMost, IsSame};
ghost use Rattle.qm_math.specs.Arithmetic.{sum_of, product_of};
ghost use Rattle.qm_math.specs.Sums.{sum_of_each};
ghost use Rattle.qm_math.specs.Totals.{total_of};
ghost use Rattle.qm_math.specs.Combinations.{dot_product};
ghost use Rattle.qm_math.specs.Over.{over, common_den, common_nums};

/// Sums of whole numbers over lists: of lists joined, of sums and multiples, in either order, and
/// term by term.
pub fn sums_of_whole_numbers()
    ensures joined { (f : ℕ → ℤ) (xs ys : List ℕ) →
        sum_of_each f (xs ++ ys) ≡ sum_of_each f xs +ℤ sum_of_each f ys }
    ensures multiple { (k : ℤ) (f : ℕ → ℤ) (xs : List ℕ) →
        k *ℤ sum_of_each f xs ≡ sum_of_each (λ x. k *ℤ f x) xs }
    ensures sum { (f g : ℕ → ℤ) (xs : List ℕ) →
        sum_of_each (λ x. f x +ℤ g x) xs ≡ sum_of_each f xs +ℤ sum_of_each g xs }
    ensures exchange { (f : ℕ → ℕ → ℤ) (xs ys : List ℕ) →
        sum_of_each (λ x. sum_of_each (f x) ys) xs
        ≡ sum_of_each (λ y. sum_of_each (λ x. f x y) xs) ys }
    ensures at_most { (f g : ℕ → ℤ) (xs : List ℕ) → All (λ x. f x ≤ℤ g x) xs →
        sum_of_each f xs ≤ℤ sum_of_each g xs }
{}

/// Sums of fractions over lists, up to the same number: of lists joined, of sums and multiples, term
/// by term, and of items left out that give 0.
pub fn sums_of_fractions()
    ensures joined { (f : ℕ → Fraction) (xs ys : List ℕ) →
        IsSame (total_of f (xs ++ ys)) (sum_of (total_of f xs) (total_of f ys)) }
    ensures multiple { (k : Fraction) (f : ℕ → Fraction) (xs : List ℕ) →
        IsSame (product_of k (total_of f xs)) (total_of (λ x. product_of k (f x)) xs) }
    ensures sum { (f g : ℕ → Fraction) (xs : List ℕ) →
        IsSame (total_of (λ x. sum_of (f x) (g x)) xs) (sum_of (total_of f xs) (total_of g xs)) }
    ensures left_out { (f : ℕ → Fraction) (test : ℕ → Bool) (xs : List ℕ) →
        All (λ x. test x ≡ false → IsSame (f x) (whole (pos 0))) xs →
        IsSame (total_of f (filter test xs)) (total_of f xs) }
    ensures same { (f g : ℕ → Fraction) (xs : List ℕ) → All (λ x. IsSame (f x) (g x)) xs →
        IsSame (total_of f xs) (total_of g xs) }
    ensures at_most { (f g : ℕ → Fraction) (xs : List ℕ) → All (λ x. IsAtMost (f x) (g x)) xs →
        IsAtMost (total_of f xs) (total_of g xs) }
{}

/// The two sums of a double sum of fractions change places.
pub fn the_sums_of_a_double_sum_exchange()
    ensures { (f : ℕ → ℕ → Fraction) (xs ys : List ℕ) →
        All (λ x. All (λ y. HasPositiveDen (f x y)) ys) xs →
        IsSame (total_of (λ x. total_of (f x) ys) xs)
        (total_of (λ y. total_of (λ x. f x y) xs) ys) }
{}

/// Fractions over one denominator are added and compared by their numerators, and any fractions
/// have a common one.
pub fn sums_over_one_denominator()
    ensures sum { (d : ℕ) (f : ℕ → ℤ) (xs : List ℕ) →
        IsSame (total_of (λ x. over d (f x)) xs) (over d (sum_of_each f xs)) }
    ensures row { (d : ℕ) (columns : List ℕ) (k x : ℕ → ℤ) →
        IsSame (dot_product columns (λ c. whole (k c)) (λ c. over d (x c)))
        (over d (sum_of_each (λ c. k c *ℤ x c) columns)) }
    ensures at_most { (d : ℕ) (m n : ℤ) → 0 < d → IsAtMost (over d m) (over d n) ↔ (m ≤ℤ n) }
    ensures common { (xs : List Fraction) →
        AllZip IsSame (map (over (common_den xs)) (common_nums xs)) xs }
    ensures positive { (xs : List Fraction) → All HasPositiveDen xs → 0 < common_den xs }
{}
