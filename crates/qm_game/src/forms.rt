ghost use Rattle.std.specs.Prelude.{◌≡◌, ◌*◌, ◌^◌, ◌<◌, ◌≤◌, ◌*ℤ◌, ◌↔◌, IsTrue, length, pos, slice_index_or, unsigned_abs};
ghost use Rattle.qm_model.specs.Linear.{HasVarsBelow, IsOrdered, form};
ghost use Rattle.qm_model.specs.Sizes.{reach_in_values, row_size, terms_size};
ghost use Rattle.qm_model.specs.Plays.{HoldsAt};

use crate::product::product;
use crate::{Row, Term};

/// The coefficient times its variable's value.
fn value_part(term: Term, values: &[i64]) -> i128
    requires var { term.var < length values.now }
    requires size { unsigned_abs term.coef * unsigned_abs (slice_index_or values.now term.var (pos 0)) ≤ 2 ^ 126 }
    ensures { result ≡ term.coef *ℤ slice_index_or values.now term.var (pos 0) }
{
    product(term.coef, i128::from(values[term.var as usize]))
}

/// What the terms come to at these values of all variables.
pub fn form_at(terms: &[Term], values: &[i64]) -> i128
    requires ordered { IsOrdered terms.now }
    requires vars { HasVarsBelow (length values.now) terms.now }
    requires size { terms_size (reach_in_values values.now) terms.now ≤ 2 ^ 126 }
    ensures value { result ≡ form terms.now values.now }
    ensures size { unsigned_abs result ≤ terms_size (reach_in_values values.now) terms.now }
{
    let mut sum: i128 = 0;
    for term in terms {
        sum += value_part(*term, values);
    }
    sum
}

/// Whether the row holds at these values of all variables.
pub fn row_holds(row: &Row, values: &[i64]) -> bool
    requires vars { HasVarsBelow (length values.now) row.now.terms }
    requires size { row_size (reach_in_values values.now) row.now ≤ 2 ^ 126 }
    ensures { IsTrue result ↔ HoldsAt values.now row.now }
{
    form_at(row.terms.as_slice(), values) <= row.right
}
