ghost use Rattle.std.specs.Prelude.{◌≡◌, ◌<◌, ◌≤◌, ◌^◌, pos, IfSome, IsSomeAnd, is_some, slice_get, unsigned_abs};
ghost use Rattle.std.specs.List.{list_all};
ghost use Rattle.qm_model.specs.Linear.{coefficient};
ghost use Rattle.qm_trees.specs.CutEntries.{bound_row, row_on};
ghost use Rattle.qm_combo.specs.Entries.{IsNarrow};
ghost use Rattle.qm_cuts.specs.Steps.{IsUsable};

use qm_combo::coefficient_of;
use qm_model::{Problem, Row, Var};
use qm_trees::{CutEntry, CutRow};

/// Whether the row that an entry stands on is there.
fn is_there(problem: &Problem, earlier: &[Row], on: CutRow) -> bool
    ensures { result ≡ is_some (row_on problem.now earlier.now on) }
{
    match on {
        CutRow::Row(number) => (number as usize) < problem.rows.len(),
        CutRow::Uncertain(number) => (number as usize) < problem.urows.len(),
        CutRow::Cut(number) => (number as usize) < earlier.len(),
        CutRow::Low(var) => (var as usize) < problem.vars.len(),
        CutRow::High(var) => (var as usize) < problem.vars.len(),
    }
}

/// Whether each is there.
pub(crate) fn all_there(problem: &Problem, earlier: &[Row], entries: &[CutEntry]) -> bool
    ensures { result ≡ list_all (λ e. is_some (row_on problem.now earlier.now e.on)) entries.now }
{
    for entry in entries {
        if !is_there(problem, earlier, entry.on) {
            return false;
        }
    }
    true
}

fn right_at(rows: &[Row], number: u32) -> i128
    requires { IsSomeAnd (slice_get rows.now number) IsNarrow }
    ensures value { IfSome (slice_get rows.now number) (λ row. result ≡ row.right) }
    ensures narrow { unsigned_abs result < 2 ^ 127 }
{
    rows[number as usize].right
}

fn low_of(x: &Var) -> i128
    ensures value { result ≡ x.now.low }
    ensures narrow { unsigned_abs result < 2 ^ 127 }
{
    i128::from(x.low)
}

fn high_of(x: &Var) -> i128
    ensures value { result ≡ x.now.high }
    ensures narrow { unsigned_abs result < 2 ^ 127 }
{
    i128::from(x.high)
}

/// The right side of the row that an entry stands on.
pub(crate) fn right_on(problem: &Problem, earlier: &[Row], on: CutRow) -> i128
    requires { IsUsable problem.now earlier.now on }
    ensures value { IfSome (row_on problem.now earlier.now on) (λ row. result ≡ row.right) }
    ensures narrow { unsigned_abs result < 2 ^ 127 }
{
    match on {
        CutRow::Row(number) => right_at(problem.rows.as_slice(), number),
        CutRow::Uncertain(number) => right_at(problem.urows.as_slice(), number),
        CutRow::Cut(number) => right_at(earlier, number),
        CutRow::Low(var) => -low_of(&problem.vars.as_slice()[var as usize]),
        CutRow::High(var) => high_of(&problem.vars.as_slice()[var as usize]),
    }
}

fn coefficient_at(rows: &[Row], number: u32, var: u32) -> i128
    requires { IsSomeAnd (slice_get rows.now number) IsNarrow }
    ensures value { IfSome (slice_get rows.now number) (λ row. result ≡ coefficient row.terms var) }
    ensures narrow { unsigned_abs result < 2 ^ 127 }
{
    coefficient_of(rows[number as usize].terms.as_slice(), var)
}

fn bound_coefficient(sign: i128, of: u32, var: u32) -> i128
    requires { unsigned_abs sign ≤ 1 }
    ensures value { result ≡ coefficient (bound_row sign of (pos 0)).terms var }
    ensures narrow { unsigned_abs result < 2 ^ 127 }
{
    if of == var { sign } else { 0 }
}

/// The variable's coefficient in the row that an entry stands on.
pub(crate) fn coefficient_on(problem: &Problem, earlier: &[Row], on: CutRow, var: u32) -> i128
    requires { IsUsable problem.now earlier.now on }
    ensures value { IfSome (row_on problem.now earlier.now on) (λ row. result ≡ coefficient row.terms var) }
    ensures narrow { unsigned_abs result < 2 ^ 127 }
{
    match on {
        CutRow::Row(number) => coefficient_at(problem.rows.as_slice(), number, var),
        CutRow::Uncertain(number) => coefficient_at(problem.urows.as_slice(), number, var),
        CutRow::Cut(number) => coefficient_at(earlier, number, var),
        CutRow::Low(of) => bound_coefficient(-1, of, var),
        CutRow::High(of) => bound_coefficient(1, of, var),
    }
}
