ghost use Rattle.std.specs.Prelude.{◌≡◌, ◌+◌, ◌<◌, ◌^◌, ◌++◌, OnOk, IfOk, drop, length};
ghost use Rattle.qm_math.specs.Arithmetic.{negated};
ghost use Rattle.qm_tableau.specs.Tables.{row_at};
ghost use Rattle.qm_trees.specs.Entries.{AreEntries};
ghost use Rattle.qm_simplex.specs.Multipliers.{closing_combination, closing_entries, entry_for, multiplier, number_for, slack_name, slack_rows, slacks_start};

use qm_frac::Frac;
use qm_io::Memory;
use qm_model::{Problem, Range, Row, RowId};
use qm_tableau::Tableau;
use qm_trees::{Combo, Entry};
use std::alloc::Global;

/// What the row of the slack of this number is called.
fn slack_name(rows: usize, urows: usize, n: usize) -> RowId
    requires { n < 2 ^ 32 }
    ensures { result ≡ slack_name rows urows n }
{
    if n < rows {
        RowId::Row(n as u32)
    } else if n - rows < urows {
        RowId::Uncertain((n - rows) as u32)
    } else {
        RowId::Cut((n - rows - urows) as u32)
    }
}

/// The number of a row in the column of the quantity of row i, 0 where there is none.
fn number_for(tableau: &Tableau, row: u32, i: u32) -> Frac
    requires { row < length tableau.now.rows }
    ensures { result ≡ number_for i tableau.now.columns (drop 1 (row_at tableau.now.rows row)) }
{
    let _width = tableau.width();
    for (k, column) in tableau.rows_of_columns().iter().enumerate() {
        if *column == i {
            return tableau.entry(row, k as u32 + 1);
        }
    }
    Frac::whole(0)
}

/// What the quantity of row i is multiplied with in what closes by a row.
fn multiplier(tableau: &Tableau, row: u32, i: u32) -> Frac
    requires { row < length tableau.now.rows }
    ensures { result ≡ multiplier tableau.now row i }
{
    if i == row {
        return Frac::whole(1);
    }
    number_for(tableau, row, i).neg()
}

/// Puts an entry last, where its multiplier isn't 0.
fn push_entry(combo: &mut Combo, row: RowId, by: Frac) -> Result<(), Memory>
    requires { AreEntries (combo.old.entries ++ entry_for row by) }
    ensures { OnOk result (combo.new ≡ record combo.old { entries = combo.old.entries ++ entry_for row by }) }
{
    if by.num() == 0 {
        return Ok(());
    }
    combo.push(Entry { row, by })
}

/// What closes by a row, with the objective or without: the slacks' multipliers on their rows.
#[tactic(auto, using(crate::proofs::FirstEntries::entries_so_far))]
pub fn closing_combination(
    alloc: Global,
    problem: &Problem,
    cuts: &[Row],
    bx: &[Range],
    tableau: &Tableau,
    objective: bool,
    row: u32,
) -> Result<Combo, Memory>
    requires row { row < length tableau.now.rows }
    requires height { slacks_start bx.now + length (slack_rows problem.now cuts.now) < 2 ^ 32 }
    requires entries { AreEntries (closing_entries problem.now cuts.now bx.now tableau.now row) }
    ensures { IfOk result (λ combo. combo ≡ closing_combination problem.now cuts.now bx.now tableau.now objective row) }
{
    let rows = problem.rows.len();
    let urows = problem.urows.len();
    let start = 1 + 2 * bx.len();
    let mut combo = Combo::new(alloc, objective);
    for n in 0..rows + urows + cuts.len() {
        let by = multiplier(tableau, row, (start + n) as u32);
        push_entry(&mut combo, slack_name(rows, urows, n), by)?;
    }
    Ok(combo)
}
