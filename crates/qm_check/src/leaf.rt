ghost use Rattle.std.specs.Prelude.{◌≡◌, ◌+◌, ◌^◌, ◌<◌, ◌≤◌, ◌&&◌, All, Ok, length, nat_lt, unsigned_abs};
ghost use Rattle.qm_math.specs.Fraction.{is_at_most, whole};
ghost use Rattle.qm_frac.specs.Checked.{added, and_then, divided, multiplied};
ghost use Rattle.qm_model.specs.Points.{continuous_vars};
ghost use Rattle.qm_model.specs.Sound.{IsRowOver};
ghost use Rattle.qm_trees.specs.Evaluation.{greatest_end_by, least_end_by, zero};
ghost use Rattle.qm_trees.specs.Leaves.{add_terms, are_in_bounds, leaf_passes, objective_reaches, row_holds, rows_hold, value_at};
ghost use Rattle.qm_check.specs.Narrow.{AreNarrow, IsNarrow};

use crate::ends::{greatest_end, least_end};
use crate::numbers::is_at_most;
use qm_frac::{Frac, Leaves, over_one};
use qm_model::{Game, Problem, Range, Row, Term, Var};

// ---- bounds

/// Whether the value lies within the variable's bounds.
fn is_within(value: Frac, var: &Var) -> bool
    ensures { result ≡ (nat_lt 0 value.den && is_at_most (whole var.now.low) value && is_at_most value (whole var.now.high)) }
{
    // that it is above 0
    let _den = value.den();
    is_at_most(Frac::whole(var.low), value) && is_at_most(value, Frac::whole(var.high))
}

/// Whether each value lies within its variable's bounds.
fn are_within(vars: &[Var], point: &[Frac]) -> bool
    requires { length vars.now ≡ length point.now }
    ensures { result ≡ are_in_bounds vars.now point.now }
{
    for (at, var) in vars.iter().enumerate() {
        if !is_within(point[at], var) {
            return false;
        }
    }
    true
}

/// Whether each value lies within the bounds of its continuous variable.
fn are_in_bounds(problem: &Problem, point: &[Frac]) -> bool
    requires wholes { problem.now.wholes ≤ length problem.now.vars }
    requires point { length problem.now.vars ≡ problem.now.wholes + length point.now }
    ensures { result ≡ are_in_bounds (continuous_vars problem.now) point.now }
{
    are_within(&problem.vars.as_slice()[problem.wholes as usize..], point)
}

// ---- sums

/// Where all whole variables are set: a box, and a value for each continuous variable.
#[derive(Clone, Copy)]
struct Leaf<'a> {
    problem: &'a Problem,
    bx: &'a [Range],
    point: &'a [Frac],
    ghost long: { length bx.now ≡ problem.now.wholes + length point.now },
}

/// The value of the term's variable where the term is greatest.
fn greatest_value(leaf: Leaf<'_>, term: Term) -> Frac
    requires { term.var < length leaf.bx.now }
    ensures { result ≡ value_at greatest_end_by leaf.entry.problem.now leaf.entry.bx.now leaf.entry.point.now term }
{
    if term.var < leaf.problem.wholes {
        greatest_end(term, leaf.bx[term.var as usize])
    } else {
        leaf.point[(term.var - leaf.problem.wholes) as usize]
    }
}

/// The value of the term's variable where the term is least.
fn least_value(leaf: Leaf<'_>, term: Term) -> Frac
    requires { term.var < length leaf.bx.now }
    ensures { result ≡ value_at least_end_by leaf.entry.problem.now leaf.entry.bx.now leaf.entry.point.now term }
{
    if term.var < leaf.problem.wholes {
        least_end(term, leaf.bx[term.var as usize])
    } else {
        leaf.point[(term.var - leaf.problem.wholes) as usize]
    }
}

/// To the sum so far, the term's coefficient times the value is added.
fn add_term(term: Term, value: Frac, sum: Frac) -> Result<Frac, Leaves>
    requires { unsigned_abs term.coef < 2 ^ 127 }
    ensures { result ≡ and_then (multiplied (whole term.coef) value) (λ p. added sum p) }
{
    let product = over_one(term.coef).mul(value)?;
    sum.add(product)
}

/// What the terms come to where each is greatest.
fn greatest_sum(leaf: Leaf<'_>, terms: &[Term]) -> Result<Frac, Leaves>
    requires { AreNarrow (length leaf.bx.now) terms.now }
    ensures { result ≡ add_terms (value_at greatest_end_by leaf.entry.problem.now leaf.entry.bx.now leaf.entry.point.now) terms.now zero }
{
    let mut sum = Frac::whole(0);
    for term in terms {
        sum = add_term(*term, greatest_value(leaf, *term), sum)?;
    }
    Ok(sum)
}

/// What the terms come to where each is least.
fn least_sum(leaf: Leaf<'_>, terms: &[Term]) -> Result<Frac, Leaves>
    requires { AreNarrow (length leaf.bx.now) terms.now }
    ensures { result ≡ add_terms (value_at least_end_by leaf.entry.problem.now leaf.entry.bx.now leaf.entry.point.now) terms.now zero }
{
    let mut sum = Frac::whole(0);
    for term in terms {
        sum = add_term(*term, least_value(leaf, *term), sum)?;
    }
    Ok(sum)
}

// ---- rows and the objective

/// Whether the row holds where its sum is greatest.
fn row_holds(leaf: Leaf<'_>, row: &Row) -> Result<bool, Leaves>
    requires { IsNarrow (length leaf.bx.now) row.now }
    ensures { result ≡ row_holds leaf.entry.problem.now leaf.entry.bx.now leaf.entry.point.now row.now }
{
    let sum = greatest_sum(leaf, row.terms.as_slice())?;
    Ok(is_at_most(sum, over_one(row.right)))
}

/// Whether each row holds, row by row: one that fails ends it.
fn rows_hold(leaf: Leaf<'_>, rows: &[Row]) -> Result<bool, Leaves>
    requires { All (IsNarrow (length leaf.bx.now)) rows.now }
    ensures { result ≡ rows_hold leaf.entry.problem.now leaf.entry.bx.now leaf.entry.point.now rows.now }
{
    for row in rows {
        if !row_holds(leaf, row)? {
            return Ok(false);
        }
    }
    Ok(true)
}

/// Whether a total reaches the value once it is divided by the scale.
fn scaled_reaches(problem: &Problem, value: Frac, total: Frac) -> Result<bool, Leaves>
    requires scale { unsigned_abs problem.now.scale < 2 ^ 127 }
    requires positive { 0 < unsigned_abs problem.now.scale }
    ensures { result ≡ and_then (divided total (whole problem.now.scale)) (λ w. Ok (is_at_most value w)) }
{
    let objective = total.div(over_one(problem.scale))?;
    Ok(is_at_most(value, objective))
}

/// Whether the objective whose terms come to the sum reaches the value.
fn sum_reaches(problem: &Problem, value: Frac, sum: Frac) -> Result<bool, Leaves>
    requires constant { unsigned_abs problem.now.constant < 2 ^ 127 }
    requires scale { unsigned_abs problem.now.scale < 2 ^ 127 }
    requires positive { 0 < unsigned_abs problem.now.scale }
    ensures { result ≡ and_then (added sum (whole problem.now.constant)) (λ k. and_then (divided k (whole problem.now.scale)) (λ w. Ok (is_at_most value w))) }
{
    let total = sum.add(over_one(problem.constant))?;
    scaled_reaches(problem, value, total)
}

/// Whether the objective reaches the value where it is least.
fn objective_reaches(leaf: Leaf<'_>, value: Frac) -> Result<bool, Leaves>
    requires terms { AreNarrow (length leaf.bx.now) leaf.problem.now.terms }
    requires constant { unsigned_abs leaf.problem.now.constant < 2 ^ 127 }
    requires scale { unsigned_abs leaf.problem.now.scale < 2 ^ 127 }
    requires positive { 0 < unsigned_abs leaf.problem.now.scale }
    ensures { result ≡ objective_reaches leaf.entry.problem.now value leaf.entry.bx.now leaf.entry.point.now }
{
    let sum = least_sum(leaf, leaf.problem.terms.as_slice())?;
    sum_reaches(leaf.problem, value, sum)
}

/// Whether the values are in bounds, each row holds at the worst ends of the box, and the objective is at least the
/// value there. All bounds come first, then row by row, then the objective: the first that fails or leaves ends it.
#[tactic(auto, unfolding(qm_trees::specs::Leaves::leaf_passes))]
pub(crate) fn leaf_passes(
    game: &Game,
    value: Frac,
    bx: &[Range],
    point: &[Frac],
) -> Result<bool, Leaves>
    requires bx { length bx.now ≡ length game.now.vars }
    requires point { length point.now ≡ length (continuous_vars game.now) }
    ensures { result ≡ leaf_passes game.now value bx.now point.now }
{
    let problem = game.problem();
    if !are_in_bounds(problem, point) {
        return Ok(false);
    }
    let leaf = Leaf { problem, bx, point };
    if !rows_hold(leaf, problem.rows.as_slice())? {
        return Ok(false);
    }
    objective_reaches(leaf, value)
}
