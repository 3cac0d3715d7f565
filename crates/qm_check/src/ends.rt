ghost use Rattle.std.specs.Prelude.{◌≡◌};
ghost use Rattle.qm_math.specs.Fraction.{whole};
ghost use Rattle.qm_trees.specs.Evaluation.{greatest_end_by, least_end_by};
ghost use Rattle.qm_trees.specs.Closing.{is_empty_range};

use qm_frac::Frac;
use qm_model::{Range, Term};

/// The end of the range that makes the term least.
pub(crate) fn least_end(term: Term, range: Range) -> Frac
    ensures { result ≡ whole (least_end_by term.coef range) }
{
    if term.coef < 0 {
        Frac::whole(range.high)
    } else {
        Frac::whole(range.low)
    }
}

/// The end that makes it greatest.
pub(crate) fn greatest_end(term: Term, range: Range) -> Frac
    ensures { result ≡ whole (greatest_end_by term.coef range) }
{
    if term.coef < 0 {
        Frac::whole(range.low)
    } else {
        Frac::whole(range.high)
    }
}

/// Whether the range has no value.
pub(crate) fn is_empty(range: Range) -> bool
    ensures { result ≡ is_empty_range range }
{
    range.high < range.low
}
