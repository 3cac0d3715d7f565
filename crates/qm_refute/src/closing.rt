ghost use Rattle.std.specs.Prelude.{◌≡◌, All, is_some};
ghost use Rattle.qm_game.specs.Goals.{goal_of};
ghost use Rattle.qm_model.specs.Boxes.{IsBox};
ghost use Rattle.qm_model.specs.Sound.{IsRowOver};
ghost use Rattle.qm_trees.specs.Entries.{row_named};
ghost use Rattle.qm_trees.specs.RefuteJudgement.{all_named, judge_close};
ghost use Rattle.qm_trees.specs.Verdicts.{answer_of};

use crate::sought::Sought;
use qm_combo::closes;
use qm_frac::Leaves;
use qm_game::{Bx, Game, Problem, Row, RowId};
use qm_trees::{Combo, Entry};

/// Whether the row is there.
fn is_named(problem: &Problem, cuts: &[Row], row: RowId) -> bool
    ensures { result ≡ is_some (row_named problem.now cuts.now row) }
{
    match row {
        RowId::Row(number) => (number as usize) < problem.rows.len(),
        RowId::Uncertain(number) => (number as usize) < problem.urows.len(),
        RowId::Cut(number) => (number as usize) < cuts.len(),
    }
}

/// Whether each entry names a row that is there.
fn all_named(problem: &Problem, cuts: &[Row], entries: &[Entry]) -> bool
    ensures { result ≡ all_named problem.now cuts.now entries.now }
{
    for entry in entries {
        if !is_named(problem, cuts, entry.row) {
            return false;
        }
    }
    true
}

/// Whether the combination's rows are there and it closes the goal over the box. Leaves where its first operation
/// leaves.
pub fn closes_here(game: &Game, sought: Sought<'_>, bx: &Bx, combo: &Combo) -> Result<bool, Leaves>
    requires cuts { All (IsRowOver game.now.vars) sought.cuts.now }
    requires bx { IsBox game.now.vars bx.now }
    ensures { result ≡ answer_of (judge_close game.now sought.entry.cuts.now (goal_of sought.entry.goal.now) bx.now combo.now) }
{
    if !all_named(game.problem(), sought.cuts, combo.entries()) {
        return Ok(false);
    }
    closes(game, sought.cuts, bx, sought.goal, combo)
}
