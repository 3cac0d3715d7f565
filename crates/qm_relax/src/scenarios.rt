ghost use Rattle.std.specs.Prelude.{◌↔◌, [], IfOk};
ghost use Rattle.qm_game.specs.Goals.{goal_of};
ghost use Rattle.qm_model.specs.Boxes.{IsBox};
ghost use Rattle.qm_simplex.specs.Relaxation.{IsInRelaxation};
ghost use Rattle.qm_relax.specs.Answers.{HasNoBound, IfBound, IsBestPoint, IsRight, without_point};
ghost use Rattle.qm_relax.specs.Failing.{Fails};
ghost use Rattle.qm_relax.specs.Scenarios.{FitLast, fixed_last};

use crate::fixed::fixed_box;
use crate::{Relaxed, RelaxedPoint, relax_point};
use qm_game::{Bx, Game, Goal};
use qm_io::Memory;
use std::alloc::Global;

/// What the relaxation tells of the box in which the last universal variables in game order, as many as the completion has
/// values, are fixed at these values; as `relax_point`. The point lies in the relaxation of the lent box too.
pub fn scenario_point(
    alloc: Global,
    game: &Game,
    bx: &Bx,
    completion: &[i64],
    goal: &Goal,
) -> Result<RelaxedPoint, Memory>
    requires bx { IsBox game.now.vars bx.now }
    requires completion { FitLast game.now bx.now completion.now }
    ensures right { IfOk result (λ answer. IsRight game.now [] (fixed_last game.now bx.now completion.now) (goal_of goal.now) (without_point answer)) }
    ensures exact { IfOk result (λ answer. HasNoBound (without_point answer) ↔ Fails game.now [] (fixed_last game.now bx.now completion.now)) }
    ensures best { IfOk result (IfBound (IsBestPoint game.now [] (fixed_last game.now bx.now completion.now))) }
    ensures lent { IfOk result (IfBound (λ best. IsInRelaxation game.now [] bx.now best.point)) }
{
    let fixed = fixed_box(alloc, game, bx, completion)?;
    relax_point(alloc, game, &fixed, goal)
}

/// The same without the point and its combination.
pub fn scenario(
    alloc: Global,
    game: &Game,
    bx: &Bx,
    completion: &[i64],
    goal: &Goal,
) -> Result<Relaxed, Memory>
    requires bx { IsBox game.now.vars bx.now }
    requires completion { FitLast game.now bx.now completion.now }
    ensures right { IfOk result (IsRight game.now [] (fixed_last game.now bx.now completion.now) (goal_of goal.now)) }
    ensures exact { IfOk result (λ answer. HasNoBound answer ↔ Fails game.now [] (fixed_last game.now bx.now completion.now)) }
{
    Ok(scenario_point(alloc, game, bx, completion, goal)?.without_point())
}
