ghost use Rattle.std.specs.Prelude.{◌≡◌, ◌*◌, ◌+◌, ◌^◌, ◌<◌, ◌≤◌, ◌*ℤ◌, ◌&&◌, All, IfOk, filter, int_le, length, pos, slice_index_or, unsigned_abs};
ghost use Rattle.std.specs.List.{list_all};
ghost use Rattle.qm_model.specs.Legal.{begin_within, holds_at};
ghost use Rattle.qm_model.specs.Linear.{HasVarsBelow, IsOrdered, form};
ghost use Rattle.qm_model.specs.Plays.{is_universal, spread, universal_vars, whole_vars};
ghost use Rattle.qm_model.specs.Sizes.{reach_in_values, row_size, terms_size};
ghost use Rattle.qm_certread.specs.FirstFault.{is_play};

use crate::worst::product;
use qm_certread::whole_vars;
use qm_io::{List, Memory};
use qm_model::{Game, Row, Term, Var, is_for_all};
use std::alloc::Global;

/// Whether the first of the values lies within the variable's bounds.
fn is_first_within(var: &Var, values: &[i64]) -> bool
    requires { 0 < length values.now }
    ensures { result ≡ (int_le var.now.low (slice_index_or values.now 0 (pos 0)) && int_le (slice_index_or values.now 0 (pos 0)) var.now.high) }
{
    var.low <= values[0] && values[0] <= var.high
}

/// Whether each value lies within the bounds of its universal variable.
fn are_in_bounds(vars: &[Var], values: &[i64]) -> bool
    ensures { result ≡ begin_within (filter is_universal vars.now) values.now }
{
    let mut left = values;
    for var in vars {
        if is_for_all(var) {
            match left.split_first() {
                None => return true,
                Some((_, others)) => {
                    if !is_first_within(var, left) {
                        return false;
                    }
                    left = others;
                }
            }
        }
    }
    left.is_empty()
}

/// A value for each variable: the next of the given ones for a universal variable, 0 for the others.
fn spread(alloc: Global, vars: &[Var], values: &[i64]) -> Result<List<i64>, Memory>
    ensures { IfOk result (λ all. all ≡ spread vars.now values.now) }
{
    let mut all = List::new(alloc);
    let mut left = values;
    for var in vars {
        let mut next = 0;
        if is_for_all(var) {
            if let Some((value, others)) = left.split_first() {
                next = *value;
                left = others;
            }
        }
        all.push(next)?;
    }
    Ok(all)
}

/// The coefficient times its variable's value.
fn value_part(term: Term, values: &[i64]) -> i128
    requires var { term.var < length values.now }
    requires size { unsigned_abs term.coef * unsigned_abs (slice_index_or values.now term.var (pos 0)) ≤ 2 ^ 126 }
    ensures { result ≡ term.coef *ℤ slice_index_or values.now term.var (pos 0) }
{
    product(term.coef, i128::from(values[term.var as usize]))
}

/// What the terms come to at these values of all variables.
fn sum_at(terms: &[Term], values: &[i64]) -> i128
    requires ordered { IsOrdered terms.now }
    requires vars { HasVarsBelow (length values.now) terms.now }
    requires size { terms_size (reach_in_values values.now) terms.now ≤ 2 ^ 126 }
    ensures { result ≡ form terms.now values.now }
{
    let mut sum: i128 = 0;
    for term in terms {
        sum += value_part(*term, values);
    }
    sum
}

/// Whether the row holds at these values of all variables.
fn holds_at(row: &Row, values: &[i64]) -> bool
    requires vars { HasVarsBelow (length values.now) row.now.terms }
    requires size { row_size (reach_in_values values.now) row.now ≤ 2 ^ 126 }
    ensures { result ≡ holds_at values.now row.now }
{
    sum_at(row.terms.as_slice(), values) <= row.right
}

/// Whether each row holds at these values.
fn all_hold(rows: &[Row], values: &[i64]) -> bool
    requires vars { All (λ row. HasVarsBelow (length values.now) row.terms) rows.now }
    requires size { All (λ row. row_size (reach_in_values values.now) row ≤ 2 ^ 126) rows.now }
    ensures { result ≡ list_all (holds_at values.now) rows.now }
{
    for row in rows {
        if !holds_at(row, values) {
            return false;
        }
    }
    true
}

/// Whether the values are a universal play: each lies within its bounds, and then each uncertainty row holds.
pub(crate) fn is_play(alloc: Global, game: &Game, values: &[i64]) -> Result<bool, Memory>
    ensures { IfOk result (λ plays. plays ≡ is_play game.now values.now) }
{
    let problem = game.problem();
    let vars = whole_vars(problem);
    if !are_in_bounds(vars, values) {
        return Ok(false);
    }
    let all = spread(alloc, vars, values)?;
    Ok(all_hold(problem.urows.as_slice(), all.as_slice()))
}
