ghost use Rattle.std.specs.Prelude.{◌≡◌, ◌⊎◌, pos, List, map, All, length};
ghost use Rattle.std.specs.List.{AllZip};
ghost use Rattle.qm_math.specs.Fraction.{Fraction, HasPositiveDen, whole, IsBelow, IsSame};
ghost use Rattle.qm_math.specs.Arithmetic.{product_of};
ghost use Rattle.qm_math.specs.Totals.{reduced_row};
ghost use Rattle.qm_math.specs.Lexicographic.{IsLexNegative, IsLexBelow};

/// Lists of fractions in lexicographic order: transitive, never below itself, and of two lists of
/// one length one is below the other or they are the same.
pub fn lists_of_fractions_are_ordered()
    ensures transitive { (xs ys zs : List Fraction) → All HasPositiveDen xs →
        All HasPositiveDen ys → All HasPositiveDen zs → IsLexBelow xs ys → IsLexBelow ys zs →
        IsLexBelow xs zs }
    ensures not_itself { (xs : List Fraction) → IsLexBelow xs xs → ⊥ }
    ensures total { (xs ys : List Fraction) → length xs ≡ length ys →
        IsLexBelow xs ys ⊎ (IsLexBelow ys xs ⊎ AllZip IsSame xs ys) }
{}

/// A lexicographically negative list stays so when a multiple of another is taken away: where the
/// multiplier is 0 or negative and the other is negative too, and where the list times a is below
/// the other times b, for a positive a and b = a times the multiplier.
pub fn a_pivot_keeps_columns_negative()
    ensures scaled { (factor : Fraction) (xs : List Fraction) → HasPositiveDen factor →
        All HasPositiveDen xs → IsBelow (whole (pos 0)) factor → IsLexNegative xs →
        IsLexNegative (map (product_of factor) xs) }
    ensures zero { (ks : List Fraction) (factor : Fraction) (others : List Fraction) →
        HasPositiveDen factor → All HasPositiveDen ks → All HasPositiveDen others →
        IsSame factor (whole (pos 0)) → IsLexNegative ks →
        IsLexNegative (reduced_row ks factor others) }
    ensures negative { (ks : List Fraction) (factor : Fraction) (others : List Fraction) →
        HasPositiveDen factor → All HasPositiveDen ks → All HasPositiveDen others →
        IsBelow factor (whole (pos 0)) → IsLexNegative ks → IsLexNegative others →
        IsLexNegative (reduced_row ks factor others) }
    ensures below { (ks : List Fraction) (a factor b : Fraction) (others : List Fraction) →
        HasPositiveDen a → HasPositiveDen factor → HasPositiveDen b → All HasPositiveDen ks →
        All HasPositiveDen others → IsBelow (whole (pos 0)) a → IsSame (product_of a factor) b →
        IsLexBelow (map (product_of a) ks) (map (product_of b) others) →
        IsLexNegative (reduced_row ks factor others) }
{}

/// A list falls where a negative multiple of a lexicographically negative list is taken away.
pub fn a_pivot_lowers_a_column()
    ensures { (ks : List Fraction) (factor : Fraction) (others : List Fraction) →
        length ks ≡ length others → HasPositiveDen factor → All HasPositiveDen ks →
        All HasPositiveDen others → IsBelow factor (whole (pos 0)) → IsLexNegative others →
        IsLexBelow (reduced_row ks factor others) ks }
{}
