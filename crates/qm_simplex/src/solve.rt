ghost use Rattle.std.specs.Prelude.{◌≡◌, ◌<◌, ◌^◌, All, Any, IfOk, length, Ok};
ghost use Rattle.qm_model.specs.Boxes.{IsBox, IsEmptyRange};
ghost use Rattle.qm_model.specs.Sound.{IsRowOver, IsSound};
ghost use Rattle.qm_tableau.specs.Good.{IsGood};
ghost use Rattle.qm_tableau.specs.Rule.{chosen};
ghost use Rattle.qm_trees.specs.RefuteRight.{AreNamed};
ghost use Rattle.qm_simplex.specs.Ends.{IsRightEnd, combination_of, most_pivots, pivots_of};
ghost use Rattle.qm_simplex.specs.Listed.{ListsRun};
ghost use Rattle.qm_simplex.specs.RunSteps.{Gives, Tells, choice_at_end};
ghost use Rattle.qm_simplex.specs.Stops.{AnswersRun, best_at, stop_at};

use crate::combination::closing_combination;
use crate::point::{point, value};
use crate::run::{Ending, Finished, run};
use crate::stuck::Stuck;
use crate::{LpEnd, LpFault, LpRun, RunLeaves};
use qm_game::{Bx, Game, Problem, Range, Row};
use qm_tableau::{Tableau, first};
use std::alloc::Global;

/// The best end at a tableau where no constant is negative.
#[tactic(auto, using(crate::proofs::Heights::objective_row, crate::proofs::Heights::variable_rows, crate::proofs::Heights::few_slacks, crate::proofs::Heights::few_ranges, crate::proofs::ClosingEntries::best_entries))]
fn best(
    alloc: Global,
    problem: &Problem,
    cuts: &[Row],
    bx: &[Range],
    tableau: &Tableau,
    pivots: u64,
) -> Result<LpEnd, Stuck>
    requires sound { IsSound problem.now }
    requires few_cuts { length cuts.now < 2 ^ 29 }
    requires bx { IsBox problem.now.vars bx.now }
    requires good { IsGood problem.now cuts.now bx.now tableau.now }
    ensures { Gives (best_at problem.now cuts.now bx.now pivots tableau.now) result }
{
    let value = value(problem, tableau)?;
    let point = point(alloc, tableau, bx)?;
    let combo = closing_combination(alloc, problem, cuts, bx, tableau, true, 0)?;
    Ok(LpEnd::Best {
        point,
        value,
        combo,
        pivots,
    })
}

/// What the run answers, with its pivots.
#[tactic(auto, using(crate::proofs::Heights::few_slacks, crate::proofs::Heights::void_row_there, crate::proofs::ClosingEntries::void_entries))]
fn end_of(
    alloc: Global,
    problem: &Problem,
    cuts: &[Row],
    bx: &[Range],
    tableau: &Tableau,
    run: Finished,
) -> Result<LpRun, LpFault>
    requires sound { IsSound problem.now }
    requires few_cuts { length cuts.now < 2 ^ 29 }
    requires bx { IsBox problem.now.vars bx.now }
    requires good { IsGood problem.now cuts.now bx.now tableau.now }
    requires ending { chosen tableau.now ≡ Ok (choice_at_end run.ending) }
    ensures { Tells run.pivots (stop_at problem.now cuts.now bx.now run.pivots tableau.now) result }
{
    let count = run.pivots.len() as u64;
    match run.ending {
        Ending::Best => match best(alloc, problem, cuts, bx, tableau, count) {
            Ok(end) => Ok(LpRun {
                end,
                pivots: run.pivots,
            }),
            Err(Stuck::Leaves(at, leaves)) => Err(LpFault::Leaves(RunLeaves {
                pivots: run.pivots,
                at,
                leaves,
            })),
            Err(Stuck::Memory) => Err(LpFault::Memory),
        },
        Ending::Void(row) => {
            let combo = closing_combination(alloc, problem, cuts, bx, tableau, false, row)?;
            Ok(LpRun {
                end: LpEnd::Void {
                    combo,
                    pivots: count,
                },
                pivots: run.pivots,
            })
        }
    }
}

/// Solves the linear relaxation of the box by the lexicographic dual simplex method, and lists the pivots. `Leaves`,
/// exactly where an operation of the run leaves the range; `Memory`, where there is none for the tableau, the pivots or
/// the answer.
#[tactic(auto, using(crate::proofs::RightEnds::run_told, crate::proofs::RightEnds::right_told, crate::proofs::RightEnds::short_told, crate::proofs::RightEnds::good_last, crate::proofs::RightEnds::leaving_told))]
pub fn run_lp(alloc: Global, game: &Game, cuts: &[Row], bx: &Bx) -> Result<LpRun, LpFault>
    requires cuts { All (IsRowOver game.now.vars) cuts.now }
    requires few_cuts { length cuts.now < 2 ^ 29 }
    requires bx { IsBox game.now.vars bx.now }
    requires full { Any IsEmptyRange bx.now → ⊥ }
    ensures run { ListsRun game.now cuts.now bx.now result }
    ensures right { IfOk result (λ run. IsRightEnd game.now cuts.now bx.now run.end) }
    ensures named { IfOk result (λ run. AreNamed game.now cuts.now (combination_of run.end).entries) }
    ensures pivots { IfOk result (λ run. pivots_of run.end < most_pivots game.now cuts.now bx.now) }
{
    let mut tableau = first(alloc, game, cuts, bx)?;
    let run = run(alloc, &mut tableau)?;
    end_of(alloc, game.problem(), cuts, bx.as_slice(), &tableau, run)
}

/// Solves the linear relaxation of the box as `run_lp` does, and answers the end alone. `Leaves` and `Memory` as there.
#[tactic(auto, using(crate::proofs::RightEnds::run_of_listed))]
pub fn solve_lp(alloc: Global, game: &Game, cuts: &[Row], bx: &Bx) -> Result<LpEnd, LpFault>
    requires cuts { All (IsRowOver game.now.vars) cuts.now }
    requires few_cuts { length cuts.now < 2 ^ 29 }
    requires bx { IsBox game.now.vars bx.now }
    requires full { Any IsEmptyRange bx.now → ⊥ }
    ensures run { AnswersRun game.now cuts.now bx.now result }
    ensures right { IfOk result (IsRightEnd game.now cuts.now bx.now) }
    ensures named { IfOk result (λ end. AreNamed game.now cuts.now (combination_of end).entries) }
    ensures pivots { IfOk result (λ end. pivots_of end < most_pivots game.now cuts.now bx.now) }
{
    let LpRun {
        end,
        pivots: _listed,
    } = run_lp(alloc, game, cuts, bx)?;
    Ok(end)
}
