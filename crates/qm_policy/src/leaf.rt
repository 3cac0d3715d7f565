ghost use Rattle.std.specs.Prelude.{◌≡◌, ◌+◌, ◌^◌, ◌<◌, ◌≤◌, ◌&&◌, All, length, nat_lt, unsigned_abs};
ghost use Rattle.qm_math.specs.Fraction.{is_at_most, whole};
ghost use Rattle.qm_model.specs.Linear.{HasVarsBelow};
ghost use Rattle.qm_model.specs.Sound.{IsSound};
ghost use Rattle.qm_trees.specs.Evaluation.{zero};
ghost use Rattle.qm_trees.specs.Leaves.{add_terms, are_in_bounds, leaf_objective, leaf_passes, objective_reaches, row_holds, row_sum, rows_hold, value_at};
ghost use Rattle.qm_model.specs.Points.{continuous_vars};
ghost use Rattle.qm_policy.specs.Sides.{end_by};
ghost use Rattle.qm_policy.specs.Steps.{add_term, objective_from};

use crate::fractions::{at_most, whole};
use crate::sides::{Side, term_value};
use qm_frac::{Frac, Leaves};
use qm_game::{Problem, Range, Row, Term, Var};

/// Whether the value lies within the variable's bounds.
fn is_within(value: Frac, var: &Var) -> bool
    ensures { result ≡ (nat_lt 0 value.den && is_at_most (whole var.now.low) value && is_at_most value (whole var.now.high)) }
{
    let _positive = value.den();
    at_most(Frac::whole(var.low), value) && at_most(value, Frac::whole(var.high))
}

/// Whether each value lies within its variable's bounds.
fn in_bounds(vars: &[Var], point: &[Frac]) -> bool
    requires { length vars.now ≡ length point.now }
    ensures { result ≡ are_in_bounds vars.now point.now }
{
    for (at, var) in vars.iter().enumerate() {
        if !is_within(point[at], var) {
            return false;
        }
    }
    true
}

/// The sum so far and the term's product. Leaves where the product or the sum leaves.
fn add_term(
    side: Side,
    problem: &Problem,
    bx: &[Range],
    point: &[Frac],
    term: Term,
    sum: Frac,
) -> Result<Frac, Leaves>
    requires var { term.var < length bx.now }
    requires size { unsigned_abs term.coef < 2 ^ 127 }
    requires point { length bx.now ≡ problem.now.wholes + length point.now }
    ensures { result ≡ add_term (value_at (end_by side) problem.now bx.now point.now) term sum }
{
    let value = term_value(side, problem, bx, point, term);
    let product = whole(term.coef).mul(value)?;
    sum.add(product)
}

/// The sum of the terms, each at its least or at its greatest value. Leaves where the first operation leaves.
fn sum_at(
    side: Side,
    problem: &Problem,
    bx: &[Range],
    point: &[Frac],
    terms: &[Term],
) -> Result<Frac, Leaves>
    requires vars { HasVarsBelow (length bx.now) terms.now }
    requires size { All (λ term. unsigned_abs term.coef < 2 ^ 127) terms.now }
    requires point { length bx.now ≡ problem.now.wholes + length point.now }
    ensures { result ≡ add_terms (value_at (end_by side) problem.now bx.now point.now) terms.now zero }
{
    let mut sum = Frac::whole(0);
    for term in terms {
        sum = add_term(side, problem, bx, point, *term, sum)?;
    }
    Ok(sum)
}

/// What the row comes to at a leaf, at the ends that make it greatest. Leaves where the first operation leaves.
pub fn row_sum(problem: &Problem, bx: &[Range], point: &[Frac], row: &Row) -> Result<Frac, Leaves>
    requires vars { HasVarsBelow (length bx.now) row.now.terms }
    requires size { All (λ term. unsigned_abs term.coef < 2 ^ 127) row.now.terms }
    requires point { length bx.now ≡ problem.now.wholes + length point.now }
    ensures { result ≡ row_sum problem.now bx.now point.now row.now }
{
    sum_at(Side::Greatest, problem, bx, point, row.terms.as_slice())
}

/// Whether the row holds at the ends that make its sum greatest.
fn row_holds(problem: &Problem, bx: &[Range], point: &[Frac], row: &Row) -> Result<bool, Leaves>
    requires vars { HasVarsBelow (length bx.now) row.now.terms }
    requires size { All (λ term. unsigned_abs term.coef < 2 ^ 127) row.now.terms }
    requires right { unsigned_abs row.now.right < 2 ^ 127 }
    requires point { length bx.now ≡ problem.now.wholes + length point.now }
    ensures { result ≡ row_holds problem.now bx.now point.now row.now }
{
    let sum = row_sum(problem, bx, point, row)?;
    Ok(at_most(sum, whole(row.right)))
}

/// Whether each row holds; the first that fails ends it.
fn rows_hold(problem: &Problem, bx: &[Range], point: &[Frac], rows: &[Row]) -> Result<bool, Leaves>
    requires vars { All (λ row. HasVarsBelow (length bx.now) row.terms) rows.now }
    requires size { All (λ row. All (λ term. unsigned_abs term.coef < 2 ^ 127) row.terms) rows.now }
    requires right { All (λ row. unsigned_abs row.right < 2 ^ 127) rows.now }
    requires point { length bx.now ≡ problem.now.wholes + length point.now }
    ensures { result ≡ rows_hold problem.now bx.now point.now rows.now }
{
    for row in rows {
        if !row_holds(problem, bx, point, row)? {
            return Ok(false);
        }
    }
    Ok(true)
}

/// A sum of the objective's terms, with the constant and over the scale.
fn objective_of(problem: &Problem, sum: Frac) -> Result<Frac, Leaves>
    requires { IsSound problem.now }
    ensures { result ≡ objective_from problem.now sum }
{
    let total = sum.add(whole(problem.constant))?;
    total.div(whole(problem.scale))
}

/// What the objective comes to at a leaf, at the ends that make it least. Leaves where the first operation leaves.
pub fn leaf_objective(problem: &Problem, bx: &[Range], point: &[Frac]) -> Result<Frac, Leaves>
    requires sound { IsSound problem.now }
    requires ranges { length bx.now ≡ length problem.now.vars }
    requires point { length bx.now ≡ problem.now.wholes + length point.now }
    ensures { result ≡ leaf_objective problem.now bx.now point.now }
{
    let sum = sum_at(Side::Least, problem, bx, point, problem.terms.as_slice())?;
    objective_of(problem, sum)
}

/// Whether the objective reaches the value at the ends that make it least.
#[tactic(auto, using(crate::proofs::Steps::objective_reaches_by))]
fn objective_reaches(
    problem: &Problem,
    bx: &[Range],
    point: &[Frac],
    value: Frac,
) -> Result<bool, Leaves>
    requires sound { IsSound problem.now }
    requires ranges { length bx.now ≡ length problem.now.vars }
    requires point { length bx.now ≡ problem.now.wholes + length point.now }
    ensures { result ≡ objective_reaches problem.now value bx.now point.now }
{
    let objective = leaf_objective(problem, bx, point)?;
    Ok(at_most(value, objective))
}

/// Whether each value lies within the bounds of its continuous variable.
fn bounds_hold(problem: &Problem, point: &[Frac]) -> bool
    requires wholes { problem.now.wholes ≤ length problem.now.vars }
    requires point { length problem.now.vars ≡ problem.now.wholes + length point.now }
    ensures { result ≡ are_in_bounds (continuous_vars problem.now) point.now }
{
    in_bounds(&problem.vars.as_slice()[problem.wholes as usize..], point)
}

/// Whether each row of the problem holds.
fn all_rows_hold(problem: &Problem, bx: &[Range], point: &[Frac]) -> Result<bool, Leaves>
    requires sound { IsSound problem.now }
    requires ranges { length bx.now ≡ length problem.now.vars }
    requires point { length bx.now ≡ problem.now.wholes + length point.now }
    ensures { result ≡ rows_hold problem.now bx.now point.now problem.now.rows }
{
    rows_hold(problem, bx, point, problem.rows.as_slice())
}

/// Whether the leaf passes: bounds first, then rows, then the objective.
#[tactic(auto, unfolding(qm_trees::specs::Leaves::leaf_passes))]
pub fn passes(problem: &Problem, bx: &[Range], point: &[Frac], value: Frac) -> Result<bool, Leaves>
    requires sound { IsSound problem.now }
    requires ranges { length bx.now ≡ length problem.now.vars }
    requires point { length bx.now ≡ problem.now.wholes + length point.now }
    ensures { result ≡ leaf_passes problem.now value bx.now point.now }
{
    if !bounds_hold(problem, point) {
        return Ok(false);
    }
    if !all_rows_hold(problem, bx, point)? {
        return Ok(false);
    }
    objective_reaches(problem, bx, point, value)
}
