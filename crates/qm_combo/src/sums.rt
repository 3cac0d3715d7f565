ghost use Rattle.std.specs.Prelude.{◌≡◌, ◌<◌, ◌^◌, ◌∷◌, [], length};
ghost use Rattle.qm_trees.specs.Entries.{weighted_rows, with_row};
ghost use Rattle.qm_trees.specs.Evaluation.{add_coefficients, add_least, add_right_sides, add_variables, least_end_by, less_objective, zero};
ghost use Rattle.qm_frac.specs.Checked.{and_then};
ghost use Rattle.qm_combo.specs.Entries.{AreNarrow, HasNarrowRows, IsNarrow, NameNarrowRows};

use crate::terms::{coefficient_of, row_of};
use qm_frac::{Frac, Leaves, over_one};
use qm_model::{Problem, Range, Row};
use qm_trees::Entry;

/// Each multiplier times its row's right side, added up.
pub(crate) fn add_right_sides(
    problem: &Problem,
    cuts: &[Row],
    entries: &[Entry],
) -> Result<Frac, Leaves>
    requires { NameNarrowRows problem.now cuts.now entries.now }
    ensures { result ≡ add_right_sides (weighted_rows problem.now cuts.now entries.now) zero }
{
    let mut sum = Frac::whole(0);
    for entry in entries {
        let row = row_of(problem, cuts, entry.row);
        let product = entry.by.mul(over_one(row.right))?;
        sum = sum.add(product)?;
    }
    Ok(sum)
}

/// To the coefficient so far, the multiplier times the row's coefficient of the variable, where that isn't 0.
#[tactic(auto, using(crate::proofs::Steps::and_then_ok))]
fn add_coefficient(row: &Row, by: Frac, var: u32, sum: Frac) -> Result<Frac, Leaves>
    requires { IsNarrow row.now }
    ensures { result ≡ add_coefficients var (with_row by row.now ∷ []) sum }
{
    let coefficient = coefficient_of(row.terms.as_slice(), var);
    if coefficient == 0 {
        return Ok(sum);
    }
    let product = by.mul(over_one(coefficient))?;
    sum.add(product)
}

/// The same for each entry.
#[tactic(auto, using(crate::proofs::Steps::coefficients_at))]
fn add_coefficients(
    problem: &Problem,
    cuts: &[Row],
    entries: &[Entry],
    var: u32,
) -> Result<Frac, Leaves>
    requires { NameNarrowRows problem.now cuts.now entries.now }
    ensures { result ≡ add_coefficients var (weighted_rows problem.now cuts.now entries.now) zero }
{
    let mut sum = Frac::whole(0);
    for entry in entries {
        let row = row_of(problem, cuts, entry.row);
        sum = add_coefficient(row, entry.by, var, sum)?;
    }
    Ok(sum)
}

/// The objective's coefficient is taken away, where the objective is in the combination and has the variable.
fn less_objective(problem: &Problem, objective: bool, var: u32, sum: Frac) -> Result<Frac, Leaves>
    requires { AreNarrow problem.now.terms }
    ensures { result ≡ less_objective problem.now objective var sum }
{
    if !objective {
        return Ok(sum);
    }
    let coefficient = coefficient_of(problem.terms.as_slice(), var);
    if coefficient == 0 {
        return Ok(sum);
    }
    sum.sub(over_one(coefficient))
}

/// The combination's coefficient of the variable.
pub(crate) fn combined_coefficient(
    problem: &Problem,
    cuts: &[Row],
    objective: bool,
    entries: &[Entry],
    var: u32,
) -> Result<Frac, Leaves>
    requires rows { NameNarrowRows problem.now cuts.now entries.now }
    requires objective { AreNarrow problem.now.terms }
    ensures { result ≡ and_then (add_coefficients var (weighted_rows problem.now cuts.now entries.now) zero) (λ a. less_objective problem.now objective var a) }
{
    let sum = add_coefficients(problem, cuts, entries, var)?;
    less_objective(problem, objective, var, sum)
}

/// The end of the range that makes the coefficient's multiple least.
fn least_end(coefficient: Frac, range: Range) -> i64
    ensures { result ≡ least_end_by coefficient.num range }
{
    if coefficient.num() < 0 {
        range.high
    } else {
        range.low
    }
}

/// To the sum so far, the least multiple of the coefficient over the range, where the coefficient isn't 0.
fn add_least(coefficient: Frac, range: Range, sum: Frac) -> Result<Frac, Leaves>
    ensures { result ≡ add_least coefficient range sum }
{
    if coefficient.num() == 0 {
        return Ok(sum);
    }
    let product = coefficient.mul(Frac::whole(least_end(coefficient, range)))?;
    sum.add(product)
}

/// The least value of the combination's form over the box.
#[tactic(auto, using(crate::proofs::Steps::variables_at))]
pub(crate) fn add_variables(
    problem: &Problem,
    cuts: &[Row],
    objective: bool,
    entries: &[Entry],
    bx: &[Range],
) -> Result<Frac, Leaves>
    requires rows { NameNarrowRows problem.now cuts.now entries.now }
    requires objective { AreNarrow problem.now.terms }
    requires few { length bx.now < 2 ^ 29 }
    ensures { result ≡ add_variables problem.now objective (weighted_rows problem.now cuts.now entries.now) 0 bx.now zero }
{
    let mut sum = Frac::whole(0);
    for (var, range) in bx.iter().enumerate() {
        let combined = combined_coefficient(problem, cuts, objective, entries, var as u32)?;
        sum = add_least(combined, *range, sum)?;
    }
    Ok(sum)
}
