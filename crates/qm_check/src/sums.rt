ghost use Rattle.std.specs.Prelude.{◌≡◌, ◌<◌, ◌^◌, ◌∷◌, [], Ok, true, length, unsigned_abs};
ghost use Rattle.qm_frac.specs.Checked.{and_then};
ghost use Rattle.qm_trees.specs.Entries.{weighted_rows, with_row};
ghost use Rattle.qm_trees.specs.Evaluation.{add_coefficients, less_objective, zero};
ghost use Rattle.qm_check.specs.Narrow.{AreNarrow, IsNarrow, NameNarrow};
ghost use Rattle.qm_check.specs.Sums.{AreSums, less, plus_product, sum_of_var};

use crate::rows::row_of;
use qm_frac::{Frac, Leaves, over_one};
use qm_model::{Problem, Row, Term};
use qm_trees::{Combo, Entry};

/// The sum of a variable.
pub(crate) fn sum_of(sums: &[Result<Frac, Leaves>], var: usize) -> Result<Frac, Leaves>
    requires { var < length sums.now }
    ensures { result ≡ sum_of_var sums.now var }
{
    sums[var]
}

/// To the sum, a multiplier times the term's coefficient is added.
fn plus_product(sum: Result<Frac, Leaves>, by: Frac, term: Term) -> Result<Frac, Leaves>
    requires { unsigned_abs term.coef < 2 ^ 127 }
    ensures { result ≡ plus_product sum by term.coef }
{
    let sum = sum?;
    let product = by.mul(over_one(term.coef))?;
    sum.add(product)
}

/// From the sum, the term's coefficient is taken away.
fn less(sum: Result<Frac, Leaves>, term: Term) -> Result<Frac, Leaves>
    requires { unsigned_abs term.coef < 2 ^ 127 }
    ensures { result ≡ less sum term.coef }
{
    let sum = sum?;
    sum.sub(over_one(term.coef))
}

/// To each variable's sum, a multiplier times the row's coefficient is added.
fn add_row(row: &Row, by: Frac, sums: &mut [Result<Frac, Leaves>])
    requires { IsNarrow (length sums.old) row.now }
    ensures { AreSums (λ var. and_then (sum_of_var sums.old var) (add_coefficients var (with_row by row.now ∷ []))) sums.new }
{
    for term in row.terms.as_slice() {
        sums[term.var as usize] = plus_product(sum_of(sums, term.var as usize), by, *term);
    }
}

/// The same for each entry.
fn add_rows(problem: &Problem, cuts: &[Row], entries: &[Entry], sums: &mut [Result<Frac, Leaves>])
    requires { NameNarrow (length sums.old) problem.now cuts.now entries.now }
    ensures { AreSums (λ var. and_then (sum_of_var sums.old var) (add_coefficients var (weighted_rows problem.now cuts.now entries.now))) sums.new }
{
    for entry in entries {
        add_row(row_of(problem, cuts, entry.row), entry.by, sums);
    }
}

/// From each variable's sum, the objective's coefficient is taken away.
fn less_objective(problem: &Problem, sums: &mut [Result<Frac, Leaves>])
    requires { AreNarrow (length sums.old) problem.now.terms }
    ensures { AreSums (λ var. and_then (sum_of_var sums.old var) (less_objective problem.now true var)) sums.new }
{
    for term in problem.terms.as_slice() {
        sums[term.var as usize] = less(sum_of(sums, term.var as usize), *term);
    }
}

/// Each sum begins at 0.
fn clear(sums: &mut [Result<Frac, Leaves>])
    ensures { AreSums (λ var. Ok zero) sums.new }
{
    sums.fill(Ok(Frac::whole(0)))
}

/// The combination's coefficient of each variable, with the objective's taken away where that is in it, in place of
/// the sums.
pub(crate) fn combine(
    problem: &Problem,
    cuts: &[Row],
    combo: &Combo,
    sums: &mut [Result<Frac, Leaves>],
)
    requires rows { NameNarrow (length sums.old) problem.now cuts.now combo.now.entries }
    requires objective { AreNarrow (length sums.old) problem.now.terms }
    ensures { AreSums (λ var. and_then (add_coefficients var (weighted_rows problem.now cuts.now combo.now.entries) zero) (less_objective problem.now combo.now.objective var)) sums.new }
{
    clear(sums);
    add_rows(problem, cuts, combo.entries(), sums);
    if combo.objective() {
        less_objective(problem, sums);
    }
}
