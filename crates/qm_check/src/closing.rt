ghost use Rattle.std.specs.Prelude.{◌≡◌, ◌≤◌, ◌&&◌, [], All, false, length};
ghost use Rattle.std.specs.List.{list_any};
ghost use Rattle.qm_model.specs.Plays.{is_universal};
ghost use Rattle.qm_model.specs.Sound.{IsRowOver};
ghost use Rattle.qm_game.specs.Goals.{goal_of};
ghost use Rattle.qm_trees.specs.Closing.{closes_goal, closing, is_empty_range};
ghost use Rattle.qm_trees.specs.Entries.{weighted_rows};
ghost use Rattle.qm_trees.specs.EmptyJudgement.{closes_empty, contradicts, is_void, some_universal_empty};
ghost use Rattle.qm_trees.specs.RefuteJudgement.{closes_here};
ghost use Rattle.qm_check.specs.Narrow.{HasNarrow};

use crate::combination::value;
use crate::ends::is_empty;
use crate::numbers::is_at_most;
use crate::rows::{all_named, all_uncertain};
use qm_frac::{Frac, Leaves};
use qm_game::Goal;
use qm_model::{Game, Problem, Range, Row, Var, is_for_all};
use qm_trees::{Combo, ComboValue};

// ---- refutations

/// Whether some range has no value.
fn has_empty(bx: &[Range]) -> bool
    ensures { result ≡ list_any is_empty_range bx.now }
{
    bx.iter().any(|range| is_empty(*range))
}

/// Whether a combination of this value closes the goal.
fn closes_goal(goal: &Goal, value: ComboValue) -> bool
    ensures { result ≡ closes_goal (goal_of goal.now) value }
{
    match value {
        ComboValue::Nothing => false,
        ComboValue::Void => true,
        ComboValue::Bound(bound) => match goal {
            Goal::Any => false,
            Goal::Above(least) => is_at_most(bound, *least),
        },
    }
}

/// Whether the combination, whose rows are there, closes the goal over the box.
#[tactic(auto, unfolding(qm_trees::specs::Closing::closing))]
fn closes(
    problem: &Problem,
    cuts: &[Row],
    bx: &[Range],
    goal: &Goal,
    combo: &Combo,
    sums: &mut [Result<Frac, Leaves>],
) -> Result<bool, Leaves>
    requires narrow { HasNarrow problem.now cuts.now combo.now.entries }
    requires bx { length bx.now ≡ length problem.now.vars }
    requires sums { length sums.old ≡ length problem.now.vars }
    ensures { result ≡ closing problem.now combo.now.objective (weighted_rows problem.now cuts.now combo.now.entries) bx.now (goal_of goal.now) }
{
    if has_empty(bx) {
        return Ok(true);
    }
    let value = value(problem, cuts, combo, bx, sums)?;
    Ok(closes_goal(goal, value))
}

/// Whether the combination's rows are there and it closes the goal over the box, which takes no operation where a
/// range is empty. `Leaves` names the first operation that leaves. The sums, one for each variable, are written over.
pub(crate) fn closes_here(
    game: &Game,
    cuts: &[Row],
    bx: &[Range],
    goal: &Goal,
    combo: &Combo,
    sums: &mut [Result<Frac, Leaves>],
) -> Result<bool, Leaves>
    requires cuts { All (IsRowOver game.now.vars) cuts.now }
    requires bx { length bx.now ≡ length game.now.vars }
    requires sums { length sums.old ≡ length game.now.vars }
    ensures { result ≡ closes_here game.now cuts.now bx.now (goal_of goal.now) combo.now }
{
    let problem = game.problem();
    if !all_named(problem, cuts, combo.entries()) {
        return Ok(false);
    }
    closes(problem, cuts, bx, goal, combo, sums)
}

// ---- empty trees

/// Whether the universal player sets the variable, and the range has no value.
fn is_empty_for(var: &Var, range: Range) -> bool
    ensures { result ≡ (is_universal var.now && is_empty_range range) }
{
    is_for_all(var) && is_empty(range)
}

/// Whether the range of some universal variable is empty.
fn some_universal_empty(vars: &[Var], bx: &[Range]) -> bool
    requires { length vars.now ≤ length bx.now }
    ensures { result ≡ some_universal_empty vars.now bx.now }
{
    for (at, var) in vars.iter().enumerate() {
        if is_empty_for(var, bx[at]) {
            return true;
        }
    }
    false
}

fn is_void(value: ComboValue) -> bool
    ensures { result ≡ is_void value }
{
    match value {
        ComboValue::Void => true,
        _ => false,
    }
}

/// Whether the combination, whose rows are there, contradicts the box, or a universal range of it is empty.
fn contradicts(
    problem: &Problem,
    bx: &[Range],
    combo: &Combo,
    sums: &mut [Result<Frac, Leaves>],
) -> Result<bool, Leaves>
    requires plain { combo.now.objective ≡ false }
    requires narrow { HasNarrow problem.now [] combo.now.entries }
    requires wholes { problem.now.wholes ≤ length problem.now.vars }
    requires bx { length bx.now ≡ length problem.now.vars }
    requires sums { length sums.old ≡ length problem.now.vars }
    ensures { result ≡ contradicts problem.now bx.now combo.now }
{
    let wholes = &problem.vars.as_slice()[..problem.wholes as usize];
    if some_universal_empty(wholes, bx) {
        return Ok(true);
    }
    let value = value(problem, &[], combo, bx, sums)?;
    Ok(is_void(value))
}

/// Whether the combination is of uncertainty rows alone that are there and contradict the box, or a universal range of
/// the box is empty. `Leaves` names the first operation that leaves. The sums are written over.
pub(crate) fn closes_empty(
    game: &Game,
    bx: &[Range],
    combo: &Combo,
    sums: &mut [Result<Frac, Leaves>],
) -> Result<bool, Leaves>
    requires plain { combo.now.objective ≡ false }
    requires bx { length bx.now ≡ length game.now.vars }
    requires sums { length sums.old ≡ length game.now.vars }
    ensures { result ≡ closes_empty game.now bx.now combo.now }
{
    let problem = game.problem();
    if !all_uncertain(problem, combo.entries()) {
        return Ok(false);
    }
    contradicts(problem, bx, combo, sums)
}
