ghost use Rattle.std.specs.Prelude.{◌≡◌, ◌<◌, ◌≤◌, IfSome, IsSome, Some, drop, length, slice_get};
ghost use Rattle.qm_math.specs.Fraction.{is_at_most, is_below};
ghost use Rattle.qm_model.specs.Linear.{IsOrdered, coefficient};
ghost use Rattle.qm_trees.specs.Entries.{row_named};

use qm_frac::Frac;
use qm_model::{Problem, Row, RowId, Term};
use std::cmp::Ordering;

pub(crate) fn is_below(a: Frac, b: Frac) -> bool
    ensures { result ≡ is_below a b }
{
    a.cmp(b) == Ordering::Less
}

pub(crate) fn is_at_most(a: Frac, b: Frac) -> bool
    ensures { result ≡ is_at_most a b }
{
    a.cmp(b) != Ordering::Greater
}

/// How many terms are of earlier variables.
pub fn place_of(terms: &[Term], var: u32) -> usize
    requires { IsOrdered terms.now }
    ensures within { result ≤ length terms.now }
    ensures before { coefficient (drop result terms.now) var ≡ coefficient terms.now var }
    ensures behind { IfSome (slice_get terms.now result) (λ t. var ≤ t.var) }
{
    let mut low = 0;
    let mut high = terms.len();
    while low < high {
        let middle = low + (high - low) / 2;
        if terms[middle].var < var {
            low = middle + 1;
        } else {
            high = middle;
        }
    }
    low
}

/// The coefficient of a variable, 0 where no term names it.
pub fn coefficient_of(terms: &[Term], var: u32) -> i128
    requires { IsOrdered terms.now }
    ensures { result ≡ coefficient terms.now var }
{
    let at = place_of(terms, var);
    if at < terms.len() && terms[at].var == var {
        return number_of(terms[at]);
    }
    0
}

fn number_of(term: Term) -> i128
    ensures { result ≡ term.coef }
{
    term.coef
}

/// The row that is named.
pub(crate) fn row_of<'a>(problem: &'a Problem, cuts: &'a [Row], id: RowId) -> &'a Row
    requires { IsSome (row_named problem.now cuts.now id) }
    ensures { row_named problem.now cuts.now id ≡ Some result.now }
{
    match id {
        RowId::Row(number) => &problem.rows.as_slice()[number as usize],
        RowId::Uncertain(number) => &problem.urows.as_slice()[number as usize],
        RowId::Cut(number) => &cuts[number as usize],
    }
}
