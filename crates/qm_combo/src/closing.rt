ghost use Rattle.std.specs.Prelude.{◌≡◌, All, false, true};
ghost use Rattle.qm_model.specs.Boxes.{IsBox};
ghost use Rattle.qm_model.specs.Sound.{IsRowOver};
ghost use Rattle.qm_game.specs.Goals.{goal_of};
ghost use Rattle.qm_trees.specs.Closing.{closes_goal, closing};
ghost use Rattle.qm_trees.specs.Entries.{weighted_rows};
ghost use Rattle.qm_trees.specs.Evaluation.{value_of};
ghost use Rattle.qm_trees.specs.RefuteRight.{AreNamed};
ghost use Rattle.qm_combo.specs.Entries.{HasNarrowRows};

use crate::sums::{add_right_sides, add_variables};
use crate::terms::{is_at_most, is_below};
use qm_frac::{Leaves, over_one};
use qm_game::{Bx, Goal, has_empty};
use qm_model::{Game, Problem, Range, Row};
use qm_trees::{Combo, ComboValue, Entry};

/// Whether the rows alone contradict the box.
#[tactic(auto, unfolding(qm_trees::specs::Evaluation::value_of))]
fn rows_value(
    problem: &Problem,
    cuts: &[Row],
    entries: &[Entry],
    bx: &[Range],
) -> Result<ComboValue, Leaves>
    requires { HasNarrowRows problem.now cuts.now entries.now bx.now }
    ensures { result ≡ value_of problem.now false (weighted_rows problem.now cuts.now entries.now) bx.now }
{
    let right = add_right_sides(problem, cuts, entries)?;
    let least = add_variables(problem, cuts, false, entries, bx)?;
    if is_below(right, least) {
        Ok(ComboValue::Void)
    } else {
        Ok(ComboValue::Nothing)
    }
}

/// The bound of the objective by the rows.
#[tactic(auto, unfolding(qm_trees::specs::Evaluation::value_of))]
fn bound_value(
    problem: &Problem,
    cuts: &[Row],
    entries: &[Entry],
    bx: &[Range],
) -> Result<ComboValue, Leaves>
    requires { HasNarrowRows problem.now cuts.now entries.now bx.now }
    ensures { result ≡ value_of problem.now true (weighted_rows problem.now cuts.now entries.now) bx.now }
{
    let rows = add_right_sides(problem, cuts, entries)?;
    let right = rows.add(over_one(problem.constant))?;
    let least = add_variables(problem, cuts, true, entries, bx)?;
    let gap = right.sub(least)?;
    let bound = gap.div(over_one(problem.scale))?;
    Ok(ComboValue::Bound(bound))
}

/// What the combination comes to over the box. `Leaves` names the first operation that leaves the range,
/// with its operands: first those on right sides, then for each variable in game order those on its
/// coefficient and its least multiple.
pub fn value(game: &Game, cuts: &[Row], bx: &Bx, combo: &Combo) -> Result<ComboValue, Leaves>
    requires cuts { All (IsRowOver game.now.vars) cuts.now }
    requires named { AreNamed game.now cuts.now combo.now.entries }
    requires bx { IsBox game.now.vars bx.now }
    ensures { result ≡ value_of game.now combo.now.objective (weighted_rows game.now cuts.now combo.now.entries) bx.now }
{
    let problem = game.problem();
    if combo.objective() {
        bound_value(problem, cuts, combo.entries(), bx.as_slice())
    } else {
        rows_value(problem, cuts, combo.entries(), bx.as_slice())
    }
}

/// Whether a combination of this value closes the goal.
fn closes_goal(goal: &Goal, value: ComboValue) -> bool
    ensures { result ≡ closes_goal (goal_of goal.now) value }
{
    match value {
        ComboValue::Nothing => false,
        ComboValue::Void => true,
        ComboValue::Bound(bound) => match goal {
            Goal::Any => false,
            Goal::Above(least) => is_at_most(bound, *least),
        },
    }
}

/// Whether the combination shows that no point of the box that meets the rows reaches the goal. It does
/// where a range is empty, with no operation. Else `Leaves` as of `value`.
pub fn closes(
    game: &Game,
    cuts: &[Row],
    bx: &Bx,
    goal: &Goal,
    combo: &Combo,
) -> Result<bool, Leaves>
    requires cuts { All (IsRowOver game.now.vars) cuts.now }
    requires named { AreNamed game.now cuts.now combo.now.entries }
    requires bx { IsBox game.now.vars bx.now }
    ensures { result ≡ closing game.now combo.now.objective (weighted_rows game.now cuts.now combo.now.entries) bx.now (goal_of goal.now) }
{
    if has_empty(bx) {
        return Ok(true);
    }
    let value = value(game, cuts, bx, combo)?;
    Ok(closes_goal(goal, value))
}
