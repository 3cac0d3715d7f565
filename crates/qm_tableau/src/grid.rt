ghost use Rattle.std.specs.Prelude.{◌≡◌, ◌*◌, ◌+◌, ◌<◌, ◌≤◌, ◌^◌, ◌++◌, ◌∷◌, [], suc, All, IfOk, length, map, slice_set, vec_len, vec_capacity};
ghost use Rattle.qm_tableau.specs.Tables.{row_at, rows_of};
ghost use Rattle.qm_tableau.specs.Wholes.{IsSmallRow, fractions_of};

use crate::wholes::{Wholes, entry_in};
use qm_frac::Frac;
use qm_io::Memory;
use std::alloc::Global;
use std::marker::Model;

/// Rows of fractions of one width in one list. Contracts see the width, the rows, and how many more fractions
/// there is room for.
#[derive(Debug, Drop)]
pub struct Grid {
    entries: Vec<Frac>,
    width: usize,
    height: usize,
}

impl Model for Grid {
    ghost use Rattle.std.specs.Prelude.{◌≡◌, ◌*◌, ◌-◌, length, vec_len, vec_capacity};
    ghost use Rattle.qm_tableau.specs.Tables.{rows_of};
    ghost use Rattle.qm_tableau.specs.StoredSteps.{FractionRows};

    ghost Value = { FractionRows };

    ghost view = { λ g. record { width = g.width; rows = rows_of g.width g.height g.entries.items; spare = vec_capacity g.entries - vec_len g.entries } };

    ghost invariant = { λ g. length g.entries.items ≡ g.height * g.width };
}

impl Grid {
    /// So many rows of this width, one after the other.
    pub fn new(entries: Vec<Frac>, width: usize, height: usize) -> Grid
        requires { length entries.items ≡ height * width }
        ensures rows { result.rows ≡ rows_of width height entries.items }
        ensures width { result.width ≡ width }
    {
        Grid {
            entries,
            width,
            height,
        }
    }

    /// No rows of this width yet, and room for so many fractions, which isn't written.
    pub fn reserved(alloc: Global, width: usize, count: usize) -> Result<Grid, Memory>
        ensures rows { IfOk result (λ g. g.rows ≡ []) }
        ensures width { IfOk result (λ g. g.width ≡ width) }
        ensures spare { IfOk result (λ g. count ≤ g.spare) }
    {
        let entries = Vec::with_capacity(alloc, count)?;
        Ok(Grid {
            entries,
            width,
            height: 0,
        })
    }

    pub fn width(&self) -> usize
        ensures { result ≡ self.now.width }
    {
        self.width
    }

    #[tactic(auto, using(crate::proofs::Cuts::length_rows_of, crate::proofs::Cuts::width_rows_of))]
    pub fn height(&self) -> usize
        ensures count { result ≡ length self.now.rows }
        ensures widths { All (λ row. length row ≡ self.now.width) self.now.rows }
    {
        self.height
    }

    /// The row of this number.
    #[tactic(auto, using(crate::proofs::Cuts::length_rows_of, crate::proofs::Cuts::row_below, crate::proofs::Cuts::row_rows_of))]
    pub fn row(&self, i: usize) -> &[Frac]
        requires { i < length self.now.rows }
        ensures row { result.now ≡ row_at self.now.rows i }
        ensures width { length result.now ≡ self.now.width }
    {
        let _count = self.entries.len();
        let from = i * self.width;
        &self.entries.as_slice()[from..from + self.width]
    }

    /// Puts a number in the place of one.
    #[tactic(auto, using(crate::proofs::Cuts::length_rows_of, crate::proofs::Cuts::place_below, crate::proofs::Cuts::set_rows_of))]
    pub fn set(&mut self, i: usize, k: usize, number: Frac)
        requires row { i < length self.old.rows }
        requires column { k < self.old.width }
        ensures rows { self.new.rows ≡ slice_set self.old.rows i (slice_set (row_at self.old.rows i) k number) }
        ensures width { self.new.width ≡ self.old.width }
    {
        let _count = self.entries.len();
        self.entries[i * self.width + k] = number;
    }

    /// Puts the fractions of a row of whole numbers behind the rows, into room that is there.
    pub fn put_row(&mut self, row: &[i64])
        requires row { IsSmallRow row.now }
        requires width { length row.now ≡ suc self.old.width }
        requires room { self.old.width ≤ self.old.spare }
        requires few { length self.old.rows < 2 ^ 32 }
        ensures rows { self.new.rows ≡ self.old.rows ++ fractions_of row.now ∷ [] }
        ensures width { self.new.width ≡ self.old.width }
        ensures spare { self.new.spare + self.old.width ≡ self.old.spare }
    {
        put_fractions(row, self.width, &mut self.entries);
        self.height += 1;
    }
}

/// Puts the fractions of a row at the end, into room that is there.
fn put_fractions(row: &[i64], width: usize, out: &mut Vec<Frac>)
    requires row { IsSmallRow row.now }
    requires width { length row.now ≡ suc width }
    requires room { vec_len out.old + width ≤ vec_capacity out.old }
    ensures items { out.new.items ≡ out.old.items ++ fractions_of row.now }
    ensures len { vec_len out.new ≡ vec_len out.old + width }
    ensures capacity { vec_capacity out.new ≡ vec_capacity out.old }
{
    for k in 0..width {
        out.push_reserved(entry_in(row, k));
    }
}

/// Puts the fractions of rows of whole numbers where no rows are, into room that is there.
pub fn put_rows(numbers: &Wholes, out: &mut Grid)
    requires small { All IsSmallRow numbers.now.rows }
    requires width { numbers.now.width ≡ suc out.old.width }
    requires empty { out.old.rows ≡ [] }
    requires room { length numbers.now.rows * out.old.width ≤ out.old.spare }
    requires few { length numbers.now.rows < 2 ^ 32 }
    ensures rows { out.new.rows ≡ map fractions_of numbers.now.rows }
    ensures width { out.new.width ≡ out.old.width }
{
    for i in 0..numbers.height() {
        out.put_row(numbers.row(i));
    }
}
