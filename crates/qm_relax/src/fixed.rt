ghost use Rattle.std.specs.Prelude.{◌≡◌, ◌≤◌, ◌++◌, ◌∷◌, ◌↔◌, List, IfOk, IfNone, IfSome, IsTrue, OnOk, drop, length};
ghost use Rattle.qm_model.specs.declared.range.Range.{Range};
ghost use Rattle.qm_model.specs.declared.variable.Var.{Var};
ghost use Rattle.qm_model.specs.Boxes.{IsBox};
ghost use Rattle.qm_trees.specs.Picks.{Fit, fixed, universal_count};
ghost use Rattle.qm_relax.specs.Scenarios.{FitLast, depth_of_last, fixed_last};

use qm_game::{Bx, Game, Range, Var};
use qm_io::{List, Memory};
use qm_model::{contains, is_for_all, single};
use std::alloc::Global;

/// How many of the variables are universal.
fn universal_count(vars: &[Var]) -> usize
    ensures { result ≡ universal_count vars.now }
{
    let mut count = 0;
    for var in vars {
        if is_for_all(var) {
            count += 1;
        }
    }
    count
}

/// The first depth from which on no more than so many universal variables are left.
fn depth_of_last(vars: &[Var], count: usize) -> usize
    ensures value { result ≡ depth_of_last vars.now count }
    ensures within { result ≤ length vars.now }
{
    let mut left = universal_count(vars);
    for (at, var) in vars.iter().enumerate() {
        if left <= count {
            return at;
        }
        if is_for_all(var) {
            left -= 1;
        }
    }
    vars.len()
}

/// Puts the variable's range last, or the next value's where the variable is universal and a value is left, and tells how
/// many values are used then.
fn push_fixed(
    out: &mut List<Range>,
    var: &Var,
    range: Range,
    values: &[i64],
    used: usize,
) -> Result<usize, Memory>
    requires { used ≤ length values.now }
    ensures within { IfOk result (λ more. more ≤ length values.now) }
    ensures next { IfOk result (λ more. (xs : List Var) (bx : List Range) → out.new ++ fixed xs bx (drop more values.now) ≡ out.old ++ fixed (var.now ∷ xs) (range ∷ bx) (drop used values.now)) }
{
    if is_for_all(var) && used < values.len() {
        out.push(single(values[used]))?;
        return Ok(used + 1);
    }
    out.push(range)?;
    Ok(used)
}

/// Puts the ranges last, where each universal one of these variables is fixed at the next of the values.
fn append_fixed(
    out: &mut List<Range>,
    vars: &[Var],
    ranges: &[Range],
    values: &[i64],
) -> Result<(), Memory>
    requires { length vars.now ≤ length ranges.now }
    ensures { OnOk result (out.new ≡ out.old ++ fixed vars.now ranges.now values.now) }
{
    let mut used = 0;
    for (at, var) in vars.iter().enumerate() {
        used = push_fixed(out, var, ranges[at], values, used)?;
    }
    out.append(&ranges[vars.len()..])
}

/// The box in which the last universal variables are fixed at the values, one for each value. `Memory`, where there is none
/// for it.
pub fn fixed_box(alloc: Global, game: &Game, bx: &Bx, values: &[i64]) -> Result<Bx, Memory>
    requires { IsBox game.now.vars bx.now }
    ensures { IfOk result (λ ranges. ranges ≡ fixed_last game.now bx.now values.now) }
{
    let problem = game.problem();
    let wholes = &problem.vars.as_slice()[..problem.wholes as usize];
    let depth = depth_of_last(wholes, values.len());
    let (set, unset) = bx.as_slice().split_at(depth);
    let mut out = List::new(alloc);
    out.append(set)?;
    append_fixed(&mut out, &wholes[depth..], unset, values)?;
    Ok(out)
}

/// How many values are used behind the variable; none where it is universal and the next value isn't in its range.
fn used_behind(var: &Var, range: Range, values: &[i64], used: usize) -> Option<usize>
    requires { used ≤ length values.now }
    ensures within { IfSome result (λ more. more ≤ length values.now) }
    ensures some { IfSome result (λ more. (xs : List Var) (bx : List Range) → Fit (var.now ∷ xs) (range ∷ bx) (drop used values.now) ↔ Fit xs bx (drop more values.now)) }
    ensures none { IfNone result ((xs : List Var) (bx : List Range) → Fit (var.now ∷ xs) (range ∷ bx) (drop used values.now) → ⊥) }
{
    if !is_for_all(var) {
        return Some(used);
    }
    if used < values.len() && contains(range, values[used]) {
        return Some(used + 1);
    }
    None
}

/// Whether there is one value for each universal variable, in its range.
fn fits(vars: &[Var], ranges: &[Range], values: &[i64]) -> bool
    requires { length vars.now ≤ length ranges.now }
    ensures { IsTrue result ↔ Fit vars.now ranges.now values.now }
{
    let mut used = 0;
    for (at, var) in vars.iter().enumerate() {
        match used_behind(var, ranges[at], values, used) {
            Some(more) => used = more,
            None => return false,
        }
    }
    used == values.len()
}

/// Whether there are at most as many values as universal variables, and each lies in the range of its variable: what a
/// scenario asks of its completion.
pub fn fits_last(game: &Game, bx: &Bx, values: &[i64]) -> bool
    requires { IsBox game.now.vars bx.now }
    ensures { IsTrue result ↔ FitLast game.now bx.now values.now }
{
    let problem = game.problem();
    let wholes = &problem.vars.as_slice()[..problem.wholes as usize];
    let depth = depth_of_last(wholes, values.len());
    let (_, unset) = bx.as_slice().split_at(depth);
    fits(&wholes[depth..], unset, values)
}
