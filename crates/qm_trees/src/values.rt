ghost use Rattle.std.specs.Prelude.{All};
ghost use Rattle.qm_frac.specs.Lowest.{IsFrac};

use qm_frac::Frac;

/// Each fraction is in lowest terms and in range, as its type keeps it.
pub fn values_are_fractions(values: &[Frac])
    ensures { All IsFrac values.now }
{
    for value in values {
        let _terms = value.den();
    }
}
