ghost use Rattle.std.specs.Prelude.{◌≡◌, ◌<◌, ◌≤◌, ◌^◌, ◌∷◌, [], None, Some, IfOk, IfSome, drop, length, pos, ◌<ℤ◌};
ghost use Rattle.qm_tableau.specs.Tables.{entry_at, entry_of, row_at};
ghost use Rattle.qm_tableau.specs.Rule.{choice_at, choice_of, entering_column, greater_column, leaving_row, IsInTable};

use crate::rows::Rows;
use crate::{Choice, LeavesAt};

/// The first row from row 1 on whose constant is negative.
fn leaving_row(numbers: &Rows) -> Option<u32>
    requires few { length numbers.now.rows < 2 ^ 32 }
    requires width { 0 < numbers.now.width }
    ensures number { result ≡ leaving_row 1 (drop 1 numbers.now.rows) }
    ensures row { IfSome result (λ row. row < length numbers.now.rows) }
{
    for i in 1..numbers.height() {
        if numbers.is_below_zero(i, 0) {
            return Some(i as u32);
        }
    }
    None
}

/// The greater one of column k and the best so far, where row `row` leaves.
fn greater_column(numbers: &Rows, row: u32, k: u32, best: Option<u32>) -> Result<u32, LeavesAt>
    requires few { length numbers.now.rows < 2 ^ 32 }
    requires few_columns { numbers.now.width < 2 ^ 32 }
    requires row { row < length numbers.now.rows }
    requires from { 1 ≤ k }
    requires k { k < numbers.now.width }
    requires by { pos 0 <ℤ (entry_at numbers.now.rows row k).num }
    requires best { IfSome best (λ b. (1 ≤ b) × (b < numbers.now.width) × (pos 0 <ℤ (entry_at numbers.now.rows row b).num)) }
    ensures column { result ≡ greater_column numbers.now.rows (row_at numbers.now.rows row) k best }
    ensures candidate { IfOk result (λ b. (1 ≤ b) × (b < numbers.now.width) × (pos 0 <ℤ (entry_at numbers.now.rows row b).num)) }
{
    match best {
        None => Ok(k),
        Some(best) => {
            let greater = numbers.is_greater(row as usize, k as usize, best as usize)?;
            if greater { Ok(k) } else { Ok(best) }
        }
    }
}

/// The greater one of column k and the best so far, where column k is a candidate.
fn with_column(numbers: &Rows, row: u32, k: u32, best: Option<u32>) -> Result<Option<u32>, LeavesAt>
    requires few { length numbers.now.rows < 2 ^ 32 }
    requires few_columns { numbers.now.width < 2 ^ 32 }
    requires row { row < length numbers.now.rows }
    requires from { 1 ≤ k }
    requires k { k < numbers.now.width }
    requires best { IfSome best (λ b. (1 ≤ b) × (b < numbers.now.width) × (pos 0 <ℤ (entry_at numbers.now.rows row b).num)) }
    ensures answer { result ≡ entering_column numbers.now.rows (row_at numbers.now.rows row) k best (entry_at numbers.now.rows row k ∷ []) }
    ensures best { IfOk result (λ o. IfSome o (λ b. (1 ≤ b) × (b < numbers.now.width) × (pos 0 <ℤ (entry_at numbers.now.rows row b).num))) }
{
    if !numbers.is_above_zero(row as usize, k as usize) {
        return Ok(best);
    }
    let best = greater_column(numbers, row, k, best)?;
    Ok(Some(best))
}

/// The greatest of the columns that have a positive entry in the leaving row.
#[tactic(auto, using(crate::proofs::Candidates::column_done))]
fn entering_column(numbers: &Rows, row: u32) -> Result<Option<u32>, LeavesAt>
    requires few { length numbers.now.rows < 2 ^ 32 }
    requires few_columns { numbers.now.width < 2 ^ 32 }
    requires row { row < length numbers.now.rows }
    ensures column { result ≡ entering_column numbers.now.rows (row_at numbers.now.rows row) 1 None (drop 1 (row_at numbers.now.rows row)) }
    ensures candidate { IfOk result (λ o. IfSome o (λ b. (1 ≤ b) × (b < numbers.now.width) × (pos 0 <ℤ (entry_at numbers.now.rows row b).num))) }
{
    let _widths = numbers.height();
    let mut best = None;
    for k in 1..numbers.width() {
        best = with_column(numbers, row, k as u32, best)?;
    }
    Ok(best)
}

fn choice_of(row: u32, column: Option<u32>) -> Choice
    ensures { result ≡ choice_of row column }
{
    match column {
        None => Choice::VoidRow(row),
        Some(column) => Choice::Pivot(row, column),
    }
}

/// What the rule names.
pub fn choose_among(numbers: &Rows) -> Result<Choice, LeavesAt>
    requires few { length numbers.now.rows < 2 ^ 32 }
    requires few_columns { numbers.now.width < 2 ^ 32 }
    requires width { 0 < numbers.now.width }
    ensures choice { result ≡ choice_at numbers.now.rows (leaving_row 1 (drop 1 numbers.now.rows)) }
    ensures inside { IfOk result (IsInTable numbers.now.rows numbers.now.width) }
{
    match leaving_row(numbers) {
        None => Ok(Choice::Done),
        Some(row) => {
            let column = entering_column(numbers, row)?;
            Ok(choice_of(row, column))
        }
    }
}
