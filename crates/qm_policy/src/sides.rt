ghost use Rattle.std.specs.Prelude.{◌≡◌, ◌+◌, ◌<◌, length};
ghost use Rattle.qm_trees.specs.Leaves.{value_at};
ghost use Rattle.qm_policy.specs.Sides.{end_by};

use qm_frac::Frac;
use qm_game::{Problem, Range, Term};

/// Which of two values of a term.
#[derive(Clone, Copy, Debug, PartialEq, Eq)]
pub enum Side {
    Least,
    Greatest,
}

/// The end of the range that makes a multiple of the coefficient least or greatest.
fn end_of(side: Side, coef: i128, range: Range) -> i64
    ensures { result ≡ end_by side coef range }
{
    match side {
        Side::Least => if coef < 0 { range.high } else { range.low },
        Side::Greatest => if coef < 0 { range.low } else { range.high },
    }
}

/// The value of a term's variable: an end of its range for a whole one, its own for a continuous one.
pub fn term_value(side: Side, problem: &Problem, bx: &[Range], point: &[Frac], term: Term) -> Frac
    requires bx { term.var < length bx.now }
    requires point { length bx.now ≡ problem.now.wholes + length point.now }
    ensures { result ≡ value_at (end_by side) problem.now bx.now point.now term }
{
    if term.var < problem.wholes {
        return Frac::whole(end_of(side, term.coef, bx[term.var as usize]));
    }
    point[(term.var - problem.wholes) as usize]
}
