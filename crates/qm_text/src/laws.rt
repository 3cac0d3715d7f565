ghost use Rattle.std.specs.Prelude.{◌≡◌, ◌↔◌, ℕ, ℤ, pos, List, IsTrue, FitsSigned};
ghost use Rattle.std.specs.Int.{w64};
ghost use Rattle.std.specs.Fmt.{signed_decimal};
ghost use Rattle.std.specs.List.{list_all};
ghost use Rattle.qm_math.specs.Fraction.{Fraction};
ghost use Rattle.qm_frac.specs.Lowest.{IsFrac};
ghost use Rattle.qm_text.specs.Decimals.{Decimal, SpellsDecimal, Stays, decimal_value, digits_of, is_zero_digit};
ghost use Rattle.qm_text.specs.Numbers.{SpellsWhole, SpellsFraction, number_word};

/// What is written of a number spells it, and nothing else does: so reading and writing are each other's inverse.
pub fn one_word_a_number()
    ensures whole { (word : List ℕ) (n : ℤ) → FitsSigned w64 n → SpellsWhole word n ↔ (word ≡ signed_decimal n) }
    ensures fraction { (word : List ℕ) (a : Fraction) → IsFrac a → SpellsFraction word a ↔ (word ≡ number_word a) }
{}

/// A word spells one decimal at most: where its digits, its point and its exponent stand is not open.
pub fn one_decimal_a_word()
    ensures { (word : List ℕ) (d e : Decimal) → SpellsDecimal word d → SpellsDecimal word e → d ≡ e }
{}

/// A decimal whose digits are all 0 stays and is 0, whatever its exponent.
pub fn zeros_are_zero()
    ensures { (d : Decimal) → IsTrue (list_all is_zero_digit (digits_of d)) → Stays d × (decimal_value d ≡ record { num = pos 0; den = 1 }) }
{}
