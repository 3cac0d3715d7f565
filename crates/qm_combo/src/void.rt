ghost use Rattle.std.specs.Prelude.{◌≡◌, ◌≤◌, ◌&&◌, [], is_some, length};
ghost use Rattle.qm_model.specs.Boxes.{IsBox};
ghost use Rattle.qm_model.specs.Plays.{is_universal};
ghost use Rattle.qm_trees.specs.Closing.{is_empty_range};
ghost use Rattle.qm_trees.specs.Entries.{row_named};
ghost use Rattle.qm_trees.specs.EmptyJudgement.{all_uncertain, is_uncertain, is_void, judge_close, some_universal_empty};
ghost use Rattle.qm_trees.specs.Verdicts.{answer_of};

use crate::closing::value;
use qm_frac::Leaves;
use qm_game::{Bx, Range, Var};
use qm_model::{Game, Problem, RowId, is_for_all};
use qm_trees::{Combo, ComboValue, Entry};

/// Whether an uncertainty row is named that is there.
fn is_uncertain(problem: &Problem, row: RowId) -> bool
    ensures { result ≡ (is_uncertain row && is_some (row_named problem.now [] row)) }
{
    match row {
        RowId::Uncertain(number) => (number as usize) < problem.urows.len(),
        _ => false,
    }
}

/// Whether each entry names an uncertainty row that is there.
fn all_uncertain(problem: &Problem, entries: &[Entry]) -> bool
    ensures { result ≡ all_uncertain problem.now entries.now }
{
    for entry in entries {
        if !is_uncertain(problem, entry.row) {
            return false;
        }
    }
    true
}

fn is_empty(range: Range) -> bool
    ensures { result ≡ is_empty_range range }
{
    range.high < range.low
}

/// Whether the universal player sets the variable, and the range has no value.
fn is_empty_for(var: &Var, range: Range) -> bool
    ensures { result ≡ (is_universal var.now && is_empty_range range) }
{
    is_for_all(var) && is_empty(range)
}

/// Whether the range of some universal variable is empty.
fn some_universal_empty(vars: &[Var], bx: &[Range]) -> bool
    requires { length vars.now ≤ length bx.now }
    ensures { result ≡ some_universal_empty vars.now bx.now }
{
    for (at, var) in vars.iter().enumerate() {
        if is_empty_for(var, bx[at]) {
            return true;
        }
    }
    false
}

fn is_void(value: ComboValue) -> bool
    ensures { result ≡ is_void value }
{
    match value {
        ComboValue::Void => true,
        _ => false,
    }
}

/// Whether the combination is of uncertainty rows alone that contradict the box, or a universal range of the box is
/// empty. Leaves where its first operation leaves.
pub(crate) fn closes_empty(game: &Game, bx: &Bx, combo: &Combo) -> Result<bool, Leaves>
    requires { IsBox game.now.vars bx.now }
    ensures { result ≡ answer_of (judge_close game.now bx.now combo.now) }
{
    let problem = game.problem();
    if combo.objective() || !all_uncertain(problem, combo.entries()) {
        return Ok(false);
    }
    let wholes = &problem.vars.as_slice()[..problem.wholes as usize];
    if some_universal_empty(wholes, bx.as_slice()) {
        return Ok(true);
    }
    let value = value(game, &[], bx, combo)?;
    Ok(is_void(value))
}
