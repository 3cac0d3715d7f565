ghost use Rattle.std.specs.Prelude.{◌≡◌, ◌*◌, ◌-◌, ◌<◌, ◌≤◌, ◌^◌, ◌∷◌, pos, ◌<ℤ◌, suc, All, IfOk, OnErr, length, map, int_lt, unsigned_abs};
ghost use Rattle.qm_math.specs.Fraction.{whole};
ghost use Rattle.qm_tableau.specs.Tables.{entry_at, row_at, rows_of};
ghost use Rattle.qm_tableau.specs.Wholes.{IsSmall};
ghost use Rattle.qm_tableau.specs.Leaving.{giving};
ghost use Rattle.qm_tableau.specs.Pivoting.{new_rows};
ghost use Rattle.qm_tableau.specs.Rule.{is_greater};

use crate::LeavesAt;
use crate::comparing::{is_greater_in_fractions, is_greater_in_wholes};
use crate::grid::{Grid, put_rows};
use crate::pivoting::pivot_fractions;
use crate::wholes::{Wholes, entry_in, over_ones, write_wholes};
use qm_frac::Frac;
use qm_io::Memory;
use std::alloc::Global;
use std::marker::Model;
use std::mem;

/// Rows of fractions, kept in one of two forms: as whole numbers over one denominator a row, as long as all are
/// small, and from then on as fractions. Contracts see the fractions, and not the form. The room that a pivot
/// needs in either form is taken at first.
#[derive(Debug, Drop)]
pub struct Rows {
    is_whole: bool,
    wholes: Wholes,
    others: Wholes,
    fractions: Grid,
    spare: Grid,
}

impl Model for Rows {
    ghost use Rattle.qm_tableau.specs.Tables.{Numbers};
    ghost use Rattle.qm_tableau.specs.StoredSteps.{AreKept, kept_rows};

    ghost Value = { Numbers };

    ghost view = { λ r. record { width = r.fractions.width; rows = kept_rows r.is_whole r.wholes.rows r.fractions.rows } };

    ghost invariant = { λ r. AreKept r.is_whole r.wholes r.others r.fractions r.spare };
}

impl Rows {
    /// Rows of small whole numbers.
    pub fn whole(
        alloc: Global,
        numbers: Vec<i64>,
        width: usize,
        height: usize,
    ) -> Result<Rows, Memory>
        requires small { All IsSmall numbers.items }
        requires count { length numbers.items ≡ height * width }
        requires narrow { width < 2 ^ 32 - 1 }
        requires few { height < 2 ^ 32 }
        ensures { IfOk result (λ r. r ≡ record { width = width; rows = rows_of width height (map whole numbers.items) }) }
    {
        let wholes = rows_over_ones(alloc, numbers, width, height)?;
        let others = wholes.copied(alloc)?;
        let fractions = Grid::reserved(alloc, width, height * width)?;
        let spare = Grid::reserved(alloc, width, height * width)?;
        Ok(Rows {
            is_whole: true,
            wholes,
            others,
            fractions,
            spare,
        })
    }

    /// Rows of fractions.
    pub fn fractions(
        alloc: Global,
        entries: Vec<Frac>,
        width: usize,
        height: usize,
    ) -> Result<Rows, Memory>
        requires { length entries.items ≡ height * width }
        ensures { IfOk result (λ r. r ≡ record { width = width; rows = rows_of width height entries.items }) }
    {
        let mut spare = Vec::with_capacity(alloc, entries.len())?;
        spare.extend_from_slice(entries.as_slice())?;
        Ok(Rows {
            is_whole: false,
            wholes: Wholes::none(alloc),
            others: Wholes::none(alloc),
            fractions: Grid::new(entries, width, height),
            spare: Grid::new(spare, width, height),
        })
    }

    /// Whether they are kept as whole numbers. No contract says when.
    pub fn is_whole(&self) -> bool {
        self.is_whole
    }

    pub fn width(&self) -> usize
        ensures { result ≡ self.now.width }
    {
        self.fractions.width()
    }

    pub fn height(&self) -> usize
        ensures count { result ≡ length self.now.rows }
        ensures widths { All (λ row. length row ≡ self.now.width) self.now.rows }
    {
        if self.is_whole {
            self.wholes.height()
        } else {
            self.fractions.height()
        }
    }

    /// The entry in this row and column.
    pub fn entry(&self, i: usize, k: usize) -> Frac
        requires row { i < length self.now.rows }
        requires column { k < self.now.width }
        ensures { result ≡ entry_at self.now.rows i k }
    {
        if self.is_whole {
            entry_in(self.wholes.row(i), k)
        } else {
            self.fractions.row(i)[k]
        }
    }

    /// Whether the entry in this row and column is negative.
    pub fn is_below_zero(&self, i: usize, k: usize) -> bool
        requires row { i < length self.now.rows }
        requires column { k < self.now.width }
        ensures { result ≡ int_lt (entry_at self.now.rows i k).num (pos 0) }
    {
        if self.is_whole {
            self.wholes.row(i)[k + 1] < 0
        } else {
            self.fractions.row(i)[k].num() < 0
        }
    }

    /// Whether it is positive.
    pub fn is_above_zero(&self, i: usize, k: usize) -> bool
        requires row { i < length self.now.rows }
        requires column { k < self.now.width }
        ensures { result ≡ int_lt (pos 0) (entry_at self.now.rows i k).num }
    {
        if self.is_whole {
            self.wholes.row(i)[k + 1] > 0
        } else {
            self.fractions.row(i)[k].num() > 0
        }
    }

    /// Whether column k over its entry in the leaving row is lexicographically greater than the best.
    pub fn is_greater(&self, row: usize, k: usize, best: usize) -> Result<bool, LeavesAt>
        requires few { length self.now.rows < 2 ^ 32 }
        requires few_columns { self.now.width < 2 ^ 32 }
        requires row { row < length self.now.rows }
        requires k { k < self.now.width }
        requires best { best < self.now.width }
        requires by { pos 0 <ℤ (entry_at self.now.rows row k).num }
        requires best_by { pos 0 <ℤ (entry_at self.now.rows row best).num }
        ensures { result ≡ is_greater k (entry_at self.now.rows row k) best (entry_at self.now.rows row best) 0 self.now.rows }
    {
        if self.is_whole {
            Ok(is_greater_in_wholes(&self.wholes, self.wholes.row(row), k, best))
        } else {
            is_greater_in_fractions(
                &self.fractions,
                self.fractions.row(row),
                k as u32,
                best as u32,
            )
        }
    }

    /// All rows as they are after the pivot. `LeavesAt` names the first operation that leaves, and nothing is
    /// changed then. Rows of whole numbers with one that isn't small are made as fractions, from the old rows.
    pub fn pivot(&mut self, row: u32, col: u32) -> Result<(), LeavesAt>
        requires row { row < length self.old.rows }
        requires col { col < self.old.width }
        requires entry { 0 < unsigned_abs (entry_at self.old.rows row col).num }
        requires few_rows { length self.old.rows < 2 ^ 32 }
        requires few_columns { self.old.width < 2 ^ 32 }
        ensures rows { giving result self.new.rows ≡ new_rows col (row_at self.old.rows row) 0 self.old.rows }
        ensures unchanged { OnErr result (self.new ≡ self.old) }
        ensures count { length self.new.rows ≡ length self.old.rows }
        ensures width { self.new.width ≡ self.old.width }
    {
        if !self.is_whole {
            return pivot_fractions(&mut self.fractions, &mut self.spare, row, col);
        }
        if write_wholes(&self.wholes, &mut self.others, row as usize, col as usize) {
            mem::swap(&mut self.wholes, &mut self.others);
            return Ok(());
        }
        put_rows(&self.wholes, &mut self.fractions);
        put_rows(&self.wholes, &mut self.spare);
        self.is_whole = false;
        pivot_fractions(&mut self.fractions, &mut self.spare, row, col)
    }
}

/// The numbers as rows, each over the denominator 1; the numbers are let go.
fn rows_over_ones(
    alloc: Global,
    numbers: Vec<i64>,
    width: usize,
    height: usize,
) -> Result<Wholes, Memory>
    requires count { length numbers.items ≡ height * width }
    requires narrow { width < 2 ^ 32 - 1 }
    requires few { height < 2 ^ 32 }
    ensures { IfOk result (λ w. w ≡ record { width = suc width; rows = map (λ row. pos 1 ∷ row) (rows_of width height numbers.items) }) }
{
    over_ones(alloc, numbers.as_slice(), width, height)
}
