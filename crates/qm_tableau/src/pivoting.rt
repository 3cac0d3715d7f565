ghost use Rattle.std.specs.Prelude.{◌≡◌, ◌<◌, ◌^◌, ◌≤◌, OnErr, length, slice_set, unsigned_abs};
ghost use Rattle.qm_tableau.specs.Tables.{entry_at, entry_of, row_at};
ghost use Rattle.qm_tableau.specs.Leaving.{giving, placed};
ghost use Rattle.qm_tableau.specs.Pivoting.{less_multiple, new_entries, new_entry, new_row, new_rows};
ghost use Rattle.qm_frac.specs.Checked.{divided};

use crate::LeavesAt;
use crate::grid::Grid;
use qm_frac::{Frac, Leaves};
use std::mem;

/// The entry less a multiple of another. A product with 0 doesn't change it.
#[tactic(auto, using(crate::proofs::Zeros::less_zero, crate::proofs::Zeros::zero_left, crate::proofs::Zeros::zero_right))]
fn less_multiple(entry: Frac, factor: Frac, other: Frac) -> Result<Frac, Leaves>
    ensures { result ≡ less_multiple entry factor other }
{
    let _terms = entry.den();
    if factor.num() == 0 || other.num() == 0 {
        return Ok(entry);
    }
    let product = factor.mul(other)?;
    entry.sub(product)
}

/// What row i gets in column k, where the pivot is in the column `col`.
fn new_entry(
    i: u32,
    col: u32,
    factor: Frac,
    k: u32,
    entry: Frac,
    other: Frac,
) -> Result<Frac, LeavesAt>
    ensures { result ≡ new_entry i col factor k entry other }
{
    if k == col {
        return Ok(factor);
    }
    match less_multiple(entry, factor, other) {
        Ok(entry) => Ok(entry),
        Err(leaves) => Err(LeavesAt {
            row: i,
            col: k,
            leaves,
        }),
    }
}

/// The entry over the pivot.
fn factor_of(i: u32, col: u32, entry: Frac, pivot: Frac) -> Result<Frac, LeavesAt>
    requires { 0 < unsigned_abs pivot.num }
    ensures { result ≡ placed i col (divided entry pivot) }
{
    match entry.div(pivot) {
        Ok(factor) => Ok(factor),
        Err(leaves) => Err(LeavesAt {
            row: i,
            col,
            leaves,
        }),
    }
}

/// Writes into row i what this row gets with this factor.
fn write_row(
    out: &mut Grid,
    i: u32,
    col: u32,
    factor: Frac,
    row: &[Frac],
    leaving: &[Frac],
) -> Result<(), LeavesAt>
    requires i { i < length out.old.rows }
    requires row { length row.now ≡ out.old.width }
    requires leaving { length leaving.now ≡ out.old.width }
    requires few { out.old.width < 2 ^ 32 }
    ensures row { giving result (row_at out.new.rows i) ≡ new_entries i col factor 0 row.now leaving.now }
    ensures others { out.new.rows ≡ slice_set out.old.rows i (row_at out.new.rows i) }
    ensures width { out.new.width ≡ out.old.width }
{
    let _widths = out.height();
    for (k, entry) in row.iter().enumerate() {
        let number = new_entry(i, col, factor, k as u32, *entry, leaving[k])?;
        out.set(i as usize, k, number);
    }
    Ok(())
}

/// Writes all rows as they are after the pivot.
fn write_rows(numbers: &Grid, out: &mut Grid, row: u32, col: u32) -> Result<(), LeavesAt>
    requires row { row < length numbers.now.rows }
    requires col { col < numbers.now.width }
    requires entry { 0 < unsigned_abs (entry_at numbers.now.rows row col).num }
    requires rows { length out.old.rows ≡ length numbers.now.rows }
    requires width { out.old.width ≡ numbers.now.width }
    requires few_rows { length numbers.now.rows < 2 ^ 32 }
    requires few_columns { numbers.now.width < 2 ^ 32 }
    ensures rows { giving result out.new.rows ≡ new_rows col (row_at numbers.now.rows row) 0 numbers.now.rows }
    ensures count { length out.new.rows ≡ length out.old.rows }
    ensures width { out.new.width ≡ out.old.width }
{
    let leaving = numbers.row(row as usize);
    let pivot = leaving[col as usize];
    for i in 0..numbers.height() {
        let row = numbers.row(i);
        let factor = factor_of(i as u32, col, row[col as usize], pivot)?;
        write_row(out, i as u32, col, factor, row, leaving)?;
    }
    Ok(())
}

/// The rows after the pivot in the place of the rows, with as many to write them over. Where an operation
/// leaves the rows stay.
pub fn pivot_fractions(
    numbers: &mut Grid,
    spare: &mut Grid,
    row: u32,
    col: u32,
) -> Result<(), LeavesAt>
    requires row { row < length numbers.old.rows }
    requires col { col < numbers.old.width }
    requires entry { 0 < unsigned_abs (entry_at numbers.old.rows row col).num }
    requires rows { length spare.old.rows ≡ length numbers.old.rows }
    requires width { spare.old.width ≡ numbers.old.width }
    requires few_rows { length numbers.old.rows < 2 ^ 32 }
    requires few_columns { numbers.old.width < 2 ^ 32 }
    ensures rows { giving result numbers.new.rows ≡ new_rows col (row_at numbers.old.rows row) 0 numbers.old.rows }
    ensures unchanged { OnErr result (numbers.new ≡ numbers.old) }
    ensures count { length numbers.new.rows ≡ length numbers.old.rows }
    ensures width { numbers.new.width ≡ numbers.old.width }
    ensures spare_count { length spare.new.rows ≡ length numbers.new.rows }
    ensures spare_width { spare.new.width ≡ numbers.new.width }
{
    write_rows(numbers, spare, row, col)?;
    mem::swap(numbers, spare);
    Ok(())
}
