ghost use Rattle.std.specs.Prelude.{◌≡◌, ℕ, ◌<◌, ◌≤◌, ◌^◌, ◌&&◌, ◌↔◌, pos, All, IsTrue, true, length};
ghost use Rattle.qm_model.specs.Linear.{HasVarsBelow, IsOrdered, coefficient};
ghost use Rattle.qm_model.specs.Sound.{IsRowOver};
ghost use Rattle.qm_trees.specs.CutEntries.{rows_on};
ghost use Rattle.qm_trees.specs.CutRules.{derivation};
ghost use Rattle.qm_cuts.specs.Answers.{IsVerdict};
ghost use Rattle.qm_cuts.specs.Steps.{AreUsable, HaveNo, IsFound, fit_each, fits_at};

use crate::nexts::{next_in, next_variable};
use crate::sight::may_stand;
use crate::size::has_size;
use crate::standing::all_there;
use crate::sums::{add_coefficients, add_right_sides};
use qm_combo::coefficient_of;
use qm_frac::{Frac, Leaves};
use qm_model::{Game, Problem, Row, Term, Var};
use qm_trees::{CutCombo, CutEntry};

/// Whether each term is of a variable numbered below `count`.
pub(crate) fn are_below(terms: &[Term], count: usize) -> bool
    ensures { IsTrue result ↔ HasVarsBelow count terms.now }
{
    terms.iter().all(|term| (term.var as usize) < count)
}

/// Whether the coefficient may stand, and is that of the terms.
fn fits_at(terms: &[Term], var: u32, x: &Var, coefficient: Frac) -> bool
    requires { IsOrdered terms.now }
    ensures { result ≡ fits_at terms.now var x.now coefficient }
{
    may_stand(x, coefficient) && coefficient.num() == coefficient_of(terms, var)
}

/// Whether that fits too, where all before did.
fn still_fit(fit: bool, terms: &[Term], var: u32, x: &Var, coefficient: Frac) -> bool
    requires { IsOrdered terms.now }
    ensures { result ≡ (fit && fits_at terms.now var x.now coefficient) }
{
    fit && fits_at(terms, var, x, coefficient)
}

/// The first variable from `from` on that the terms have, or a row that an entry stands on.
fn next_of_both(
    problem: &Problem,
    earlier: &[Row],
    entries: &[CutEntry],
    terms: &[Term],
    from: u32,
) -> u32
    requires usable { AreUsable problem.now earlier.now entries.now }
    requires ordered { IsOrdered terms.now }
    requires few { length problem.now.vars < 2 ^ 29 }
    requires room { from ≤ length problem.now.vars }
    ensures later { from ≤ result }
    ensures within { result ≤ length problem.now.vars }
    ensures none { (n : ℕ) → from ≤ n → n < result → HaveNo problem.now earlier.now entries.now n }
    ensures no_term { (n : ℕ) → from ≤ n → n < result → coefficient terms.now n ≡ pos 0 }
{
    let limit = next_variable(problem, earlier, entries, from);
    next_in(terms, from, limit)
}

/// Whether each variable's coefficient may stand and is that of the terms. Those that neither these nor a row has are
/// passed over.
pub(crate) fn fit_each(
    problem: &Problem,
    earlier: &[Row],
    entries: &[CutEntry],
    terms: &[Term],
) -> Result<bool, Leaves>
    requires usable { AreUsable problem.now earlier.now entries.now }
    requires ordered { IsOrdered terms.now }
    requires few { length problem.now.vars < 2 ^ 29 }
    ensures { result ≡ fit_each (rows_on problem.now earlier.now entries.now) terms.now 0 problem.now.vars true }
{
    let vars = problem.vars.as_slice();
    let mut fit = true;
    let mut var = next_of_both(problem, earlier, entries, terms, 0);
    while (var as usize) < vars.len() {
        let coefficient = add_coefficients(problem, earlier, entries, var)?;
        fit = still_fit(fit, terms, var, &vars[var as usize], coefficient);
        var = next_of_both(problem, earlier, entries, terms, var + 1);
    }
    Ok(fit)
}

/// Whether the row has what was found: the coefficients, as `fit` tells, the right side, the variables and the size.
fn is_found(fit: bool, vars: &[Var], right: Frac, row: &Row) -> bool
    ensures { IsTrue result ↔ IsFound fit vars.now right row.now }
{
    if !fit || row.right != right.floor() {
        return false;
    }
    are_below(row.terms.as_slice(), vars.len()) && has_size(vars, row)
}

/// Whether these entries, among the rows and the earlier cuts, make this very cut. Leaves exactly where the first
/// operation of the evaluation leaves.
pub fn test_cut(game: &Game, earlier: &[Row], combo: &CutCombo, row: &Row) -> Result<bool, Leaves>
    requires { All (IsRowOver game.now.vars) earlier.now }
    ensures { IsVerdict (derivation game.now earlier.now combo.now) row.now result }
{
    let problem = game.problem();
    let entries = combo.entries();
    if !all_there(problem, earlier, entries) {
        return Ok(false);
    }
    let right = add_right_sides(problem, earlier, entries)?;
    let fit = fit_each(problem, earlier, entries, row.terms.as_slice())?;
    Ok(is_found(fit, problem.vars.as_slice(), right, row))
}
