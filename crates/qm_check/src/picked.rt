ghost use Rattle.std.specs.Prelude.{◌≡◌, ◌+◌, ◌<◌, ◌≤◌, ◌++◌, IfOk, OnOk, drop, length, pos, slice_index_or};
ghost use Rattle.qm_model.specs.Boxes.{IsBox};
ghost use Rattle.qm_model.specs.Plays.{whole_vars};
ghost use Rattle.qm_model.specs.Ranges.{is_in, single};
ghost use Rattle.qm_trees.specs.Picks.{fit, fixed, picked};
ghost use Rattle.qm_certread.specs.FirstFault.{can_pick};
ghost use Rattle.qm_check.specs.Completing.{begin_universal};

use crate::worst::uncertainty_holds;
use qm_certread::{later, whole_vars};
use qm_io::{List, Memory};
use qm_model::{Game, Problem, Range, Var, contains, is_for_all, single};
use std::alloc::Global;

/// Whether the first of the values lies in the range.
fn has_first(range: Range, values: &[i64]) -> bool
    requires { 0 < length values.now }
    ensures { result ≡ is_in range (slice_index_or values.now 0 (pos 0)) }
{
    contains(range, values[0])
}

/// The range of the first of the values alone.
fn single_first(values: &[i64]) -> Range
    requires { 0 < length values.now }
    ensures { result ≡ single (slice_index_or values.now 0 (pos 0)) }
{
    single(values[0])
}

/// The ranges of the variables behind this one.
fn behind(bx: &[Range], var: usize) -> &[Range]
    requires { var < length bx.now }
    ensures { result.now ≡ drop (var + 1) bx.now }
{
    bx.split_at(var + 1).1
}

/// Whether there is one value for each universal variable, in its range.
fn fits(vars: &[Var], ranges: &[Range], completion: &[i64]) -> bool
    requires { length vars.now ≤ length ranges.now }
    ensures { result ≡ fit vars.now ranges.now completion.now }
{
    let mut left = completion;
    for (at, var) in vars.iter().enumerate() {
        if is_for_all(var) {
            match left.split_first() {
                None => return false,
                Some((_, others)) => {
                    if !has_first(ranges[at], left) {
                        return false;
                    }
                    left = others;
                }
            }
        }
    }
    left.is_empty()
}

/// Whether the variable at this place is universal.
fn is_universal_at(vars: &[Var], at: usize) -> bool
    ensures { result ≡ begin_universal (drop at vars.now) }
{
    match vars.get(at) {
        Some(var) => is_for_all(var),
        None => false,
    }
}

/// Puts the ranges of these variables at the end, where each universal one is fixed at the next of the values.
fn append_fixed(
    bx: &mut List<Range>,
    vars: &[Var],
    ranges: &[Range],
    completion: &[i64],
) -> Result<(), Memory>
    ensures { OnOk result (bx.new ≡ bx.old ++ fixed vars.now ranges.now completion.now) }
{
    let mut left = completion;
    for (at, range) in ranges.iter().enumerate() {
        let mut next = *range;
        if is_universal_at(vars, at) {
            if let Some((_, others)) = left.split_first() {
                next = single_first(left);
                left = others;
            }
        }
        bx.push(next)?;
    }
    Ok(())
}

/// The box with the variable at this place at the value, and the later universal variables at the completion.
fn picked_box(
    alloc: Global,
    problem: &Problem,
    depth: usize,
    bx: &[Range],
    value: i64,
    completion: &[i64],
) -> Result<List<Range>, Memory>
    requires wholes { problem.now.wholes ≤ length problem.now.vars }
    requires bx { length bx.now ≡ length problem.now.vars }
    requires depth { depth < length (whole_vars problem.now) }
    ensures { IfOk result (λ box. box ≡ picked depth (drop (depth + 1) (whole_vars problem.now)) bx.now value completion.now) }
{
    let mut picked = List::new(alloc);
    picked.append(&bx[..depth])?;
    picked.push(single(value))?;
    let later = later(whole_vars(problem), depth + 1);
    append_fixed(&mut picked, later, behind(bx, depth), completion)?;
    Ok(picked)
}

/// Whether the value lies in the range of the variable at this place, there is one value in range for each later
/// universal variable, and with them each uncertainty row holds at the worst ends of the box.
pub(crate) fn can_pick(
    alloc: Global,
    game: &Game,
    depth: usize,
    bx: &[Range],
    value: i64,
    completion: &[i64],
) -> Result<bool, Memory>
    requires bx { IsBox game.now.vars bx.now }
    requires depth { depth < length (whole_vars game.now) }
    ensures { IfOk result (λ picks. picks ≡ can_pick game.now depth bx.now value completion.now) }
{
    let problem = game.problem();
    if !contains(bx[depth], value) {
        return Ok(false);
    }
    let later = later(whole_vars(problem), depth + 1);
    if !fits(later, behind(bx, depth), completion) {
        return Ok(false);
    }
    let picked = picked_box(alloc, problem, depth, bx, value, completion)?;
    Ok(uncertainty_holds(game, picked.as_slice()))
}
