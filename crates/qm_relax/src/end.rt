ghost use Rattle.std.specs.Prelude.{◌≡◌, All};
ghost use Rattle.qm_game.specs.Goals.{goal_of};
ghost use Rattle.qm_model.specs.Boxes.{IsBox};
ghost use Rattle.qm_model.specs.Goals.{IsProper};
ghost use Rattle.qm_model.specs.Sound.{IsRowOver};
ghost use Rattle.qm_trees.specs.Closing.{closes_goal};
ghost use Rattle.qm_trees.specs.Entries.{AreEntries};
ghost use Rattle.qm_relax.specs.AnswerSteps.{EndsWith, IsOwed, told};
ghost use Rattle.qm_relax.specs.Failing.{combination_at};

use crate::{BestPoint, RelaxedPoint, WhyNot};
use qm_combo::value;
use qm_frac::Frac;
use qm_game::{Bx, Game, Goal, Row};
use qm_simplex::LpEnd;
use qm_trees::{Combo, ComboValue};
use std::cmp::Ordering;

/// Whether a bound of the objective by the value closes the goal.
fn is_closed_by(goal: &Goal, value: Frac) -> bool
    ensures { result ≡ closes_goal (goal_of goal.now) (ComboValue.Bound value) }
{
    match goal {
        Goal::Any => false,
        Goal::Above(least) => value.cmp(*least) != Ordering::Greater,
    }
}

/// What the end of a run tells, where its combination has a value.
fn told(goal: &Goal, end: LpEnd) -> RelaxedPoint
    ensures { result ≡ told (goal_of goal.now) end }
{
    match end {
        LpEnd::Best {
            point,
            value,
            combo,
            ..
        } => {
            if is_closed_by(goal, value) {
                RelaxedPoint::Closed(combo)
            } else {
                RelaxedPoint::Bound(BestPoint {
                    value,
                    point,
                    combo,
                })
            }
        }
        LpEnd::Void { combo, .. } => RelaxedPoint::Closed(combo),
    }
}

/// The combination that a run ends with.
fn combination_at(end: &LpEnd) -> &Combo
    ensures combo { result.now ≡ combination_at end.now }
    ensures entries { AreEntries result.now.entries }
{
    let combo = match end {
        LpEnd::Best { combo, .. } => combo,
        LpEnd::Void { combo, .. } => combo,
    };
    // that the entries are in order
    let _entries = combo.entries();
    combo
}

/// A value that is to be exceeded has a positive denominator.
fn goal_is_proper(goal: &Goal)
    ensures { IsProper (goal_of goal.now) }
{
    if let Goal::Above(least) = goal {
        let _positive = least.den();
    }
}

/// What is told where the run over the box has come to this end. Its combination is evaluated whatever the goal.
pub fn told_at(game: &Game, cuts: &[Row], bx: &Bx, goal: &Goal, end: LpEnd) -> RelaxedPoint
    requires cuts { All (IsRowOver game.now.vars) cuts.now }
    requires bx { IsBox game.now.vars bx.now }
    requires end { EndsWith game.now cuts.now bx.now end }
    ensures { IsOwed game.now cuts.now bx.now (goal_of goal.now) result }
{
    goal_is_proper(goal);
    // that the game is sound
    let _problem = game.problem();
    match value(game, cuts, bx, combination_at(&end)) {
        Ok(_) => told(goal, end),
        Err(leaves) => RelaxedPoint::NoBound(WhyNot::Combination(leaves)),
    }
}
