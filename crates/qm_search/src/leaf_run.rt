ghost use Rattle.std.specs.Prelude.{◌≡◌, ◌+◌, ◌<◌, ◌^◌, ℕ, [], All, Any, IfErr, IfOk, length};
ghost use Rattle.qm_math.specs.Fraction.{Fraction};
ghost use Rattle.qm_model.specs.Boxes.{IsBox, IsEmptyRange};
ghost use Rattle.qm_model.specs.Sound.{IsRowOver, IsSound};
ghost use Rattle.qm_simplex.specs.declared.answers.LeavePlace.TheVariants as place;
ghost use Rattle.qm_simplex.specs.declared.answers.LpEnd.TheVariants.{Best};
ghost use Rattle.qm_simplex.specs.LeafRuns.{combination_at, evaluated, objective_at, rows_at};
ghost use Rattle.qm_simplex.specs.Stops.{located};
ghost use Rattle.qm_trees.specs.Leaves.{row_sum};
ghost use Rattle.qm_trees.specs.RefuteRight.{AreNamed};
ghost use Rattle.qm_search.specs.LeafSteps.{IsLawfulEnd, IsLeafEnd, IsRunFault, Tells};

use qm_combo::value;
use qm_frac::{Frac, Leaves};
use qm_game::{Bx, Game, Problem, Range, Row};
use qm_policy::{leaf_objective, row_sum};
use qm_simplex::{LeavePlace, LpEnd, LpFault, LpRun, RunLeaves, run_lp};
use qm_trees::Combo;
use std::alloc::Global;

/// The first operation behind the end of a run that leaves, and where it belongs.
#[derive(Clone, Copy, Debug, PartialEq, Eq)]
pub struct Left {
    pub at: LeavePlace,
    pub leaves: Leaves,
}

/// What the row of this number comes to at the leaf.
fn row_in_range(
    problem: &Problem,
    bx: &[Range],
    point: &[Frac],
    number: u32,
    row: &Row,
) -> Result<(), Left>
    requires row { IsRowOver problem.now.vars row.now }
    requires ranges { length bx.now ≡ length problem.now.vars }
    requires point { length bx.now ≡ problem.now.wholes + length point.now }
    ensures { Tells (located (place.RowSum number) (row_sum problem.now bx.now point.now row.now)) result }
{
    match row_sum(problem, bx, point, row) {
        Ok(_) => Ok(()),
        Err(leaves) => Err(Left {
            at: LeavePlace::RowSum(number),
            leaves,
        }),
    }
}

/// What each row comes to, in the order of the rows.
fn rows_in_range(problem: &Problem, bx: &[Range], point: &[Frac], rows: &[Row]) -> Result<(), Left>
    requires rows { All (IsRowOver problem.now.vars) rows.now }
    requires few { length rows.now < 2 ^ 29 }
    requires ranges { length bx.now ≡ length problem.now.vars }
    requires point { length bx.now ≡ problem.now.wholes + length point.now }
    ensures { Tells (rows_at problem.now bx.now point.now 1 rows.now) result }
{
    for (at, row) in rows.iter().enumerate() {
        row_in_range(problem, bx, point, at as u32 + 1, row)?;
    }
    Ok(())
}

/// What the objective comes to.
fn objective_in_range(problem: &Problem, bx: &[Range], point: &[Frac]) -> Result<(), Left>
    requires sound { IsSound problem.now }
    requires ranges { length bx.now ≡ length problem.now.vars }
    requires point { length bx.now ≡ problem.now.wholes + length point.now }
    ensures { Tells (objective_at problem.now bx.now point.now) result }
{
    match leaf_objective(problem, bx, point) {
        Ok(_) => Ok(()),
        Err(leaves) => Err(Left {
            at: LeavePlace::Objective,
            leaves,
        }),
    }
}

/// What the combination comes to over the box.
fn combination_in_range(game: &Game, bx: &Bx, combo: &Combo) -> Result<(), Left>
    requires bx { IsBox game.now.vars bx.now }
    requires named { AreNamed game.now [] combo.now.entries }
    ensures { Tells (combination_at game.now bx.now combo.now) result }
{
    match value(game, &[], bx, combo) {
        Ok(_) => Ok(()),
        Err(leaves) => Err(Left {
            at: LeavePlace::Combination,
            leaves,
        }),
    }
}

/// The evaluation behind a best end: each row, then the objective, then the combination.
#[tactic(auto, using(crate::proofs::LeafRows::best_rows_leave, crate::proofs::LeafRows::best_objective_leaves, crate::proofs::LeafRows::best_told))]
fn best_in_range(game: &Game, bx: &Bx, point: &[Frac], combo: &Combo) -> Result<(), Left>
    requires bx { IsBox game.now.vars bx.now }
    requires ranges { length bx.now ≡ length game.now.vars }
    requires long { length point.now ≡ length game.now.vars }
    requires named { AreNamed game.now [] combo.now.entries }
    ensures { (value : Fraction) (pivots : ℕ) → Tells (evaluated game.now bx.now (Best point.now value combo.now pivots)) result }
{
    let problem = game.problem();
    let leaf = &point[problem.wholes as usize..];
    rows_in_range(problem, bx.as_slice(), leaf, problem.rows.as_slice())?;
    objective_in_range(problem, bx.as_slice(), leaf)?;
    combination_in_range(game, bx, combo)
}

/// The evaluation behind the end: at a void one that of the combination alone.
#[tactic(auto, using(crate::proofs::LeafEnds::best_long, crate::proofs::LeafEnds::end_named, crate::proofs::LeafRows::void_told))]
fn end_in_range(game: &Game, bx: &Bx, end: &LpEnd) -> Result<(), Left>
    requires bx { IsBox game.now.vars bx.now }
    requires lawful { IsLawfulEnd game.now bx.now end.now }
    ensures { Tells (evaluated game.now bx.now end.now) result }
{
    match end {
        LpEnd::Void { combo, .. } => combination_in_range(game, bx, combo),
        LpEnd::Best { point, combo, .. } => best_in_range(game, bx, point.as_slice(), combo),
    }
}

/// The run of the box, and the evaluation of the leaf behind its end. `Leaves`, exactly where an operation of either
/// leaves; `Memory`, where there is none for the run.
#[tactic(auto, using(crate::proofs::LeafRows::left_within, crate::proofs::LeafRows::left_behind, crate::proofs::LeafRows::evaluated_is))]
pub fn leaf_run(alloc: Global, game: &Game, bx: &Bx) -> Result<LpEnd, LpFault>
    requires bx { IsBox game.now.vars bx.now }
    requires full { Any IsEmptyRange bx.now → ⊥ }
    ensures end { IfOk result (IsLeafEnd game.now bx.now) }
    ensures fault { IfErr result (IsRunFault game.now bx.now) }
{
    let LpRun { end, pivots } = run_lp(alloc, game, &[], bx)?;
    match end_in_range(game, bx, &end) {
        Ok(()) => Ok(end),
        Err(Left { at, leaves }) => Err(LpFault::Leaves(RunLeaves { pivots, at, leaves })),
    }
}
