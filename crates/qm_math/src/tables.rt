ghost use Rattle.std.specs.Prelude.{◌≡◌, ◌<◌, ℕ, ℤ, pos, List, All, length, slice_index_or, slice_set};
ghost use Rattle.qm_math.specs.Fraction.{Fraction, HasPositiveDen, whole, IsAtMost, IsBelow, IsSame};
ghost use Rattle.qm_math.specs.Arithmetic.{sum_of, difference_of, product_of};
ghost use Rattle.qm_math.specs.Rounding.{IsFloor};
ghost use Rattle.qm_math.specs.Totals.{total_of};
ghost use Rattle.qm_math.specs.Combinations.{dot_product, combined_row};
ghost use Rattle.qm_math.specs.Pivots.{row_value, pivoted_row, pivoted_constant, pivoted_number};
ghost use Rattle.qm_math.specs.Ends.{IsWithin, least_multiple};

/// The value of a combination of rows at x is the same combination of the rows' values at x.
pub fn a_combination_has_the_rows_values()
    ensures { (rows columns : List ℕ) (y : ℕ → Fraction) (a : ℕ → ℕ → Fraction) (x : ℕ → Fraction) →
        All (λ r. HasPositiveDen (y r)) rows →
        All (λ r. All (λ c. HasPositiveDen (a r c)) columns) rows →
        All (λ c. HasPositiveDen (x c)) columns →
        IsSame (dot_product columns (combined_row rows y a) x)
        (total_of (λ r. product_of (y r) (dot_product columns (a r) x)) rows) }
{}

/// Rows that are each at most their bounds at x, combined with numbers that are not negative, are
/// at most the combined bound: the half of Farkas' lemma by which a combination proves a bound.
pub fn a_combination_bounds()
    ensures { (rows columns : List ℕ) (y : ℕ → Fraction) (a : ℕ → ℕ → Fraction)
        (b x : ℕ → Fraction) →
        All (λ r. HasPositiveDen (y r)) rows →
        All (λ r. All (λ c. HasPositiveDen (a r c)) columns) rows →
        All (λ c. HasPositiveDen (x c)) columns → All (λ r. IsAtMost (whole (pos 0)) (y r)) rows →
        All (λ r. IsAtMost (dot_product columns (a r) x) (b r)) rows →
        IsAtMost (dot_product columns (combined_row rows y a) x)
        (total_of (λ r. product_of (y r) (b r)) rows) }
{}

/// If the combined bound is below the least value of the combined row over a box, then no x in the
/// box meets the rows: the half of Farkas' lemma by which a combination refutes rows.
pub fn a_combination_refutes()
    ensures { (rows columns : List ℕ) (y : ℕ → Fraction) (a : ℕ → ℕ → Fraction)
        (b low high x : ℕ → Fraction) →
        All (λ r. HasPositiveDen (y r)) rows →
        All (λ r. All (λ c. HasPositiveDen (a r c)) columns) rows →
        All (λ c. HasPositiveDen (x c)) columns → All (λ r. IsAtMost (whole (pos 0)) (y r)) rows →
        All (λ r. IsAtMost (dot_product columns (a r) x) (b r)) rows →
        All (λ c. IsWithin (low c) (high c) (x c)) columns →
        IsBelow (total_of (λ r. product_of (y r) (b r)) rows)
        (total_of (λ c. least_multiple (combined_row rows y a c) (low c) (high c)) columns) → ⊥ }
{}

/// A pivot keeps every row the same function of the unknowns: where the pivot row gives y, the
/// pivoted row at the values with y in the pivot column is the row at the values.
pub fn a_pivot_keeps_every_row()
    ensures { (constant other factor y : Fraction) (ks others values : List Fraction) (c : ℕ)
        (d : Fraction) →
        length ks ≡ length others → c < length ks → c < length values →
        HasPositiveDen constant → HasPositiveDen other → HasPositiveDen factor → HasPositiveDen y →
        All HasPositiveDen ks → All HasPositiveDen others → All HasPositiveDen values →
        IsSame (product_of factor (slice_index_or others c d)) (slice_index_or ks c d) →
        IsSame y (row_value other others values) →
        IsSame (row_value (pivoted_constant constant factor other) (pivoted_row ks factor others c)
        (slice_set values c y)) (row_value constant ks values) }
{}

/// A row is kept when an unknown is counted from another origin: its value falls by the shift, and
/// the constant takes the shift times the unknown's number.
pub fn a_shift_keeps_every_row()
    ensures { (constant shift : Fraction) (ks values : List Fraction) (c : ℕ) (d : Fraction) →
        c < length ks → c < length values → HasPositiveDen constant → HasPositiveDen shift →
        All HasPositiveDen ks → All HasPositiveDen values →
        IsSame (row_value (sum_of constant (product_of (slice_index_or ks c d) shift)) ks
        (slice_set values c (difference_of (slice_index_or values c d) shift)))
        (row_value constant ks values) }
{}

/// A row of whole numbers at whole values is at most its bound rounded down.
pub fn a_whole_row_is_rounded_down()
    ensures { (columns : List ℕ) (k x : ℕ → ℤ) (r : Fraction) (n : ℤ) → IsFloor n r →
        IsAtMost (dot_product columns (λ c. whole (k c)) (λ c. whole (x c))) r →
        IsAtMost (dot_product columns (λ c. whole (k c)) (λ c. whole (x c))) (whole n) }
{}

/// What a pivot does to the number of a row in a column is linear in the row: the combination of
/// rows, pivoted, is the combination of the pivoted rows.
pub fn a_pivot_is_linear()
    ensures { (rows : List ℕ) (y t p : ℕ → Fraction) (g r : Fraction) →
        IsSame (pivoted_number (dot_product rows y t) (dot_product rows y p) g r)
        (dot_product rows y (λ i. pivoted_number (t i) (p i) g r)) }
{}
