ghost use Rattle.std.specs.Prelude.{◌≡◌, ◌↔◌, ℤ, ◌≤ℤ◌};
ghost use Rattle.qm_math.specs.Fraction.{Fraction, HasPositiveDen, whole, IsAtMost};
ghost use Rattle.qm_math.specs.Rounding.{IsFloor, IsCeil, floor_of, ceil_of};

/// Rounded down, a fraction gives its floor; it has no other, and a whole number is at most the
/// fraction exactly where it is at most the floor.
pub fn a_fraction_has_one_floor()
    ensures is_floor { (a : Fraction) → HasPositiveDen a → IsFloor (floor_of a) a }
    ensures one { (m n : ℤ) (a : Fraction) → IsFloor m a → IsFloor n a → m ≡ n }
    ensures greatest { (n : ℤ) (a : Fraction) (k : ℤ) → IsFloor n a →
        IsAtMost (whole k) a ↔ (k ≤ℤ n) }
{}

/// Rounded up, a fraction gives its ceiling; it has no other, and the fraction is at most a whole
/// number exactly where the ceiling is.
pub fn a_fraction_has_one_ceiling()
    ensures is_ceiling { (a : Fraction) → HasPositiveDen a → IsCeil (ceil_of a) a }
    ensures one { (m n : ℤ) (a : Fraction) → IsCeil m a → IsCeil n a → m ≡ n }
    ensures least { (n : ℤ) (a : Fraction) (k : ℤ) → IsCeil n a → IsAtMost a (whole k) ↔ (n ≤ℤ k) }
{}
