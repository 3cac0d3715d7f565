ghost use Rattle.std.specs.Prelude.{◌≡◌, ◌&&◌, [], IsSome, Some, is_some};
ghost use Rattle.qm_trees.specs.Entries.{row_named};
ghost use Rattle.qm_trees.specs.EmptyJudgement.{all_uncertain, is_uncertain};
ghost use Rattle.qm_trees.specs.RefuteJudgement.{all_named};

use qm_model::{Problem, Row, RowId};
use qm_trees::Entry;

/// Whether the row is there.
fn is_named(problem: &Problem, cuts: &[Row], row: RowId) -> bool
    ensures { result ≡ is_some (row_named problem.now cuts.now row) }
{
    match row {
        RowId::Row(number) => (number as usize) < problem.rows.len(),
        RowId::Uncertain(number) => (number as usize) < problem.urows.len(),
        RowId::Cut(number) => (number as usize) < cuts.len(),
    }
}

/// Whether each entry names a row that is there.
pub(crate) fn all_named(problem: &Problem, cuts: &[Row], entries: &[Entry]) -> bool
    ensures { result ≡ all_named problem.now cuts.now entries.now }
{
    for entry in entries {
        if !is_named(problem, cuts, entry.row) {
            return false;
        }
    }
    true
}

/// Whether an uncertainty row is named that is there.
fn is_uncertain(problem: &Problem, row: RowId) -> bool
    ensures { result ≡ (is_uncertain row && is_some (row_named problem.now [] row)) }
{
    match row {
        RowId::Uncertain(number) => (number as usize) < problem.urows.len(),
        _ => false,
    }
}

/// Whether each entry names an uncertainty row that is there.
pub(crate) fn all_uncertain(problem: &Problem, entries: &[Entry]) -> bool
    ensures { result ≡ all_uncertain problem.now entries.now }
{
    for entry in entries {
        if !is_uncertain(problem, entry.row) {
            return false;
        }
    }
    true
}

/// The row that is named.
pub(crate) fn row_of<'a>(problem: &'a Problem, cuts: &'a [Row], id: RowId) -> &'a Row
    requires { IsSome (row_named problem.now cuts.now id) }
    ensures { row_named problem.now cuts.now id ≡ Some result.now }
{
    match id {
        RowId::Row(number) => &problem.rows.as_slice()[number as usize],
        RowId::Uncertain(number) => &problem.urows.as_slice()[number as usize],
        RowId::Cut(number) => &cuts[number as usize],
    }
}
