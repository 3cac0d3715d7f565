ghost use Rattle.std.specs.Prelude.{◌<◌, ◌↔◌, ◌^◌, [], All, IfOk, length};
ghost use Rattle.qm_game.specs.Goals.{goal_of};
ghost use Rattle.qm_model.specs.Boxes.{IsBox};
ghost use Rattle.qm_model.specs.Sound.{IsRowOver};
ghost use Rattle.qm_relax.specs.Answers.{HasNoBound, IfBound, IsBestPoint, IsRight, without_point};
ghost use Rattle.qm_relax.specs.AnswerSteps.{IsOwed};
ghost use Rattle.qm_relax.specs.Failing.{Fails};

use crate::end::told_at;
use crate::{Relaxed, RelaxedPoint, WhyNot};
use qm_game::{Bx, Game, Goal, Row, has_empty};
use qm_io::Memory;
use qm_simplex::{LpFault, solve_lp};
use qm_trees::Combo;
use std::alloc::Global;

/// What is told of a box and cuts.
pub(crate) fn relax_with(
    alloc: Global,
    game: &Game,
    cuts: &[Row],
    bx: &Bx,
    goal: &Goal,
) -> Result<RelaxedPoint, Memory>
    requires cuts { All (IsRowOver game.now.vars) cuts.now }
    requires few_cuts { length cuts.now < 2 ^ 29 }
    requires bx { IsBox game.now.vars bx.now }
    ensures { IfOk result (IsOwed game.now cuts.now bx.now (goal_of goal.now)) }
{
    if has_empty(bx) {
        return Ok(RelaxedPoint::Closed(Combo::new(alloc, false)));
    }
    match solve_lp(alloc, game, cuts, bx) {
        Ok(end) => Ok(told_at(game, cuts, bx, goal, end)),
        Err(LpFault::Leaves(leaves)) => Ok(RelaxedPoint::NoBound(WhyNot::Run(leaves))),
        Err(LpFault::Memory) => Err(Memory),
    }
}

/// What the relaxation of the box tells: a combination that closes the goal, with none of its operations leaving; the
/// greatest objective, where that doesn't close the goal; or exactly where the run over the box fails, which operation
/// leaves. A box with an empty range is closed. With a bound comes a point that has it, and a combination that closes
/// each goal above it. `Memory`, where there is none for the run or the answer.
pub fn relax_point(alloc: Global, game: &Game, bx: &Bx, goal: &Goal) -> Result<RelaxedPoint, Memory>
    requires { IsBox game.now.vars bx.now }
    ensures right { IfOk result (λ answer. IsRight game.now [] bx.now (goal_of goal.now) (without_point answer)) }
    ensures exact { IfOk result (λ answer. HasNoBound (without_point answer) ↔ Fails game.now [] bx.now) }
    ensures best { IfOk result (IfBound (IsBestPoint game.now [] bx.now)) }
{
    relax_with(alloc, game, &[], bx, goal)
}

/// The same without the point and its combination.
pub fn relax(alloc: Global, game: &Game, bx: &Bx, goal: &Goal) -> Result<Relaxed, Memory>
    requires { IsBox game.now.vars bx.now }
    ensures right { IfOk result (IsRight game.now [] bx.now (goal_of goal.now)) }
    ensures exact { IfOk result (λ answer. HasNoBound answer ↔ Fails game.now [] bx.now) }
{
    Ok(relax_point(alloc, game, bx, goal)?.without_point())
}
