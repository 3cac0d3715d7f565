ghost use Rattle.std.specs.Prelude.{◌≡◌, ◌<◌, ◌≤◌, ◌^◌, ◌-◌, suc, IfOk, OnErr, length, slice_index_or, unsigned_abs};
ghost use Rattle.qm_tableau.specs.Tables.{entry_at};
ghost use Rattle.qm_tableau.specs.Leaving.{giving};
ghost use Rattle.qm_tableau.specs.Pivoting.{pivoted};
ghost use Rattle.qm_tableau.specs.Rule.{IsInTable, chosen};

use crate::choosing::choose_among;
use crate::rows::Rows;
use crate::{Choice, LeavesAt};
use qm_frac::Frac;
use qm_io::List;
use std::marker::Model;

/// Rows of fractions: row 0 belongs to the objective and column 0 to the constants; each column from 1
/// on belongs to the quantity of a row. Contracts see the rows and, for each column from 1 on, that row.
#[derive(Debug, Drop)]
pub struct Tableau {
    columns: List<u32>,
    numbers: Rows,
}

impl Model for Tableau {
    ghost use Rattle.std.specs.Prelude.{◌≡◌, ◌<◌, ◌^◌, suc, length};
    ghost use Rattle.qm_tableau.specs.Tables.{Table};

    ghost Value = { Table };

    ghost view = { λ t. record { columns = t.columns; rows = t.numbers.rows } };

    ghost invariant = { λ t. (t.numbers.width ≡ suc (length t.columns))
        × (length t.numbers.rows < 2 ^ 32) × (t.numbers.width < 2 ^ 32) };
}

impl Tableau {
    /// The tableau of these rows.
    pub(crate) fn new(columns: List<u32>, numbers: Rows) -> Tableau
        requires columns { length columns < 2 ^ 32 - 1 }
        requires height { length numbers.rows < 2 ^ 32 }
        requires width { numbers.width ≡ suc (length columns) }
        ensures { result ≡ record { columns = columns; rows = numbers.rows } }
    {
        Tableau { columns, numbers }
    }

    /// Whether the entries are kept as whole numbers over one denominator a row, which pivots change in a
    /// fraction of the time. It changes no answer, and no contract says when it is so.
    pub fn is_whole(&self) -> bool {
        self.numbers.is_whole()
    }

    /// How many rows there are.
    pub fn height(&self) -> usize
        ensures count { result ≡ length self.now.rows }
        ensures few { result < 2 ^ 32 }
    {
        self.numbers.height()
    }

    /// How many columns there are, the constants' among them.
    pub fn width(&self) -> usize
        ensures count { result ≡ suc (length self.now.columns) }
        ensures few { result < 2 ^ 32 }
    {
        self.numbers.width()
    }

    /// The row whose quantity this column belongs to.
    pub fn row_of_column(&self, col: u32) -> u32
        requires first { 1 ≤ col }
        requires col { col ≤ length self.now.columns }
        ensures { result ≡ slice_index_or self.now.columns (col - 1) 0 }
    {
        self.columns.as_slice()[col as usize - 1]
    }

    /// For each column from 1 on, the row whose quantity it belongs to.
    pub fn rows_of_columns(&self) -> &[u32]
        ensures { result.now ≡ self.now.columns }
    {
        self.columns.as_slice()
    }

    /// The entry in this row and column.
    pub fn entry(&self, row: u32, col: u32) -> Frac
        requires row { row < length self.now.rows }
        requires col { col ≤ length self.now.columns }
        ensures { result ≡ entry_at self.now.rows row col }
    {
        self.numbers.entry(row as usize, col as usize)
    }

    /// The next pivot by the rule. `LeavesAt` names the first operation that leaves.
    pub fn choose(&self) -> Result<Choice, LeavesAt>
        ensures choice { result ≡ chosen self.now }
        ensures inside { IfOk result (IsInTable self.now.rows (suc (length self.now.columns))) }
    {
        choose_among(&self.numbers)
    }

    /// Exchanges the quantity of a column with that of a row. `LeavesAt` names the first operation that
    /// leaves, and the tableau is then unchanged.
    pub fn pivot(&mut self, row: u32, col: u32) -> Result<(), LeavesAt>
        requires row { row < length self.old.rows }
        requires first { 1 ≤ col }
        requires col { col ≤ length self.old.columns }
        requires entry { 0 < unsigned_abs (entry_at self.old.rows row col).num }
        ensures new { giving result self.new ≡ pivoted self.old row col }
        ensures unchanged { OnErr result (self.new ≡ self.old) }
    {
        self.numbers.pivot(row, col)?;
        self.columns.set(col as usize - 1, row);
        Ok(())
    }
}
