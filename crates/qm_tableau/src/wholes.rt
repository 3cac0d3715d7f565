ghost use Rattle.std.specs.Prelude.{◌≡◌, ◌*◌, ◌<◌, ◌≤◌, ◌^◌, ◌∷◌, [], suc, pos, ◌<ℤ◌, true, ◌++◌, ◌-◌, All, IfOk, OnOk, Ok, length, map, slice_index_or, slice_set};
ghost use Rattle.qm_tableau.specs.Tables.{entry_of, rows_of};
ghost use Rattle.qm_tableau.specs.Wholes.{IsSmallRow, at_place, fractions_of};
ghost use Rattle.qm_tableau.specs.UpdateSteps.{IsUpdated};
ghost use Rattle.qm_tableau.specs.Pivoting.{new_rows};

use crate::updating::update;
use qm_frac::Frac;
use qm_io::Memory;
use std::alloc::Global;
use std::marker::Model;

/// Rows of whole numbers of one width in one list, each with its denominator in front.
#[derive(Debug, Drop)]
pub struct Wholes {
    numbers: Vec<i64>,
    width: usize,
    height: usize,
}

impl Model for Wholes {
    ghost use Rattle.std.specs.Prelude.{◌≡◌, ◌*◌, length};
    ghost use Rattle.qm_tableau.specs.Tables.{rows_of};
    ghost use Rattle.qm_tableau.specs.StoredSteps.{WholeRows};

    ghost Value = { WholeRows };

    ghost view = { λ w. record { width = w.width; rows = rows_of w.width w.height w.numbers.items } };

    ghost invariant = { λ w. length w.numbers.items ≡ w.height * w.width };
}

impl Wholes {
    /// So many rows of this width, one after the other.
    pub fn new(numbers: Vec<i64>, width: usize, height: usize) -> Wholes
        requires { length numbers.items ≡ height * width }
        ensures { result ≡ record { width = width; rows = rows_of width height numbers.items } }
    {
        Wholes {
            numbers,
            width,
            height,
        }
    }

    /// No rows.
    pub fn none(alloc: Global) -> Wholes {
        Wholes::new(Vec::new(alloc), 0, 0)
    }

    /// The same rows once more.
    pub fn copied(&self, alloc: Global) -> Result<Wholes, Memory>
        ensures { IfOk result (λ w. w ≡ self.now) }
    {
        let mut numbers = Vec::with_capacity(alloc, self.numbers.len())?;
        numbers.extend_from_slice(self.numbers.as_slice())?;
        Ok(Wholes {
            numbers,
            width: self.width,
            height: self.height,
        })
    }

    pub fn width(&self) -> usize
        ensures { result ≡ self.now.width }
    {
        self.width
    }

    #[tactic(auto, using(crate::proofs::Cuts::length_rows_of, crate::proofs::Cuts::width_rows_of))]
    pub fn height(&self) -> usize
        ensures count { result ≡ length self.now.rows }
        ensures widths { All (λ row. length row ≡ self.now.width) self.now.rows }
    {
        self.height
    }

    /// The row of this number, its denominator in front.
    #[tactic(auto, using(crate::proofs::Cuts::length_rows_of, crate::proofs::Cuts::row_below, crate::proofs::Cuts::row_rows_of))]
    pub fn row(&self, i: usize) -> &[i64]
        requires { i < length self.now.rows }
        ensures row { result.now ≡ slice_index_or self.now.rows i [] }
        ensures width { length result.now ≡ self.now.width }
    {
        let _count = self.numbers.len();
        let from = i * self.width;
        &self.numbers.as_slice()[from..from + self.width]
    }

    /// Writes into row i what a pivot makes of a row, where its numbers are small.
    pub fn update_row(&mut self, i: usize, col: usize, row: &[i64], leaving: &[i64]) -> bool
        requires i { i < length self.old.rows }
        requires col { suc col < self.old.width }
        requires row_width { length row.now ≡ self.old.width }
        requires leaving_width { length leaving.now ≡ self.old.width }
        requires row { IsSmallRow row.now }
        requires leaving { IsSmallRow leaving.now }
        requires pivot { pos 0 <ℤ at_place leaving.now (suc col) }
        ensures updated { result ≡ true → IsUpdated col leaving.now row.now (slice_index_or self.new.rows i []) }
        ensures others { self.new.rows ≡ slice_set self.old.rows i (slice_index_or self.new.rows i []) }
        ensures width { self.new.width ≡ self.old.width }
    {
        let (width, height) = (self.width, self.height);
        update_at(
            self.numbers.as_mut_slice(),
            width,
            height,
            i,
            col,
            row,
            leaving,
        )
    }
}

/// Writes into row i of these rows, one after the other, what a pivot makes of a row, where its numbers are small.
#[tactic(auto, using(crate::proofs::Cuts::row_below))]
fn update_at(
    numbers: &mut [i64],
    width: usize,
    height: usize,
    i: usize,
    col: usize,
    row: &[i64],
    leaving: &[i64],
) -> bool
    requires i { i < height }
    requires count { length numbers.old ≡ height * width }
    requires col { suc col < width }
    requires row_width { length row.now ≡ width }
    requires leaving_width { length leaving.now ≡ width }
    requires row { IsSmallRow row.now }
    requires leaving { IsSmallRow leaving.now }
    requires pivot { pos 0 <ℤ at_place leaving.now (suc col) }
    ensures updated { result ≡ true → IsUpdated col leaving.now row.now (slice_index_or (rows_of width height numbers.new) i []) }
    ensures others { rows_of width height numbers.new ≡ slice_set (rows_of width height numbers.old) i (slice_index_or (rows_of width height numbers.new) i []) }
    ensures count { length numbers.new ≡ length numbers.old }
{
    let _count = numbers.len();
    let from = i * width;
    update(&mut numbers[from..from + width], col, row, leaving)
}

/// The entry of a row in column k.
pub fn entry_in(row: &[i64], k: usize) -> Frac
    requires row { IsSmallRow row.now }
    requires k { suc k < length row.now }
    ensures { result ≡ entry_of (fractions_of row.now) k }
{
    match Frac::of(i128::from(row[k + 1]), i128::from(row[0])) {
        Some(entry) => entry,
        None => unreachable!(),
    }
}

/// The row of this number among rows of this width.
#[tactic(auto, using(crate::proofs::Cuts::row_below, crate::proofs::Cuts::row_rows_of))]
fn row_of(numbers: &[i64], width: usize, height: usize, i: usize) -> &[i64]
    requires i { i < height }
    requires count { length numbers.now ≡ height * width }
    ensures row { result.now ≡ slice_index_or (rows_of width height numbers.now) i [] }
    ensures width { length result.now ≡ width }
{
    let _count = numbers.len();
    let from = i * width;
    &numbers[from..from + width]
}

/// Puts a row behind the denominator 1 at the end.
fn push_row(out: &mut Vec<i64>, row: &[i64]) -> Result<(), Memory>
    ensures { OnOk result (out.new.items ≡ out.old.items ++ pos 1 ∷ row.now) }
{
    out.push(1)?;
    out.extend_from_slice(row)?;
    Ok(())
}

/// Rows of whole numbers, each behind the denominator 1.
pub fn over_ones(
    alloc: Global,
    numbers: &[i64],
    width: usize,
    height: usize,
) -> Result<Wholes, Memory>
    requires count { length numbers.now ≡ height * width }
    requires narrow { width < 2 ^ 32 - 1 }
    requires few { height < 2 ^ 32 }
    ensures { IfOk result (λ w. w ≡ record { width = suc width; rows = map (λ row. pos 1 ∷ row) (rows_of width height numbers.now) }) }
{
    let mut out = Vec::with_capacity(alloc, height * (width + 1))?;
    for i in 0..height {
        push_row(&mut out, row_of(numbers, width, height, i))?;
    }
    Ok(Wholes::new(out, width + 1, height))
}

/// Writes all rows as they are after the pivot, where it is in a positive entry and all numbers are small.
pub fn write_wholes(numbers: &Wholes, out: &mut Wholes, row: usize, col: usize) -> bool
    requires small { All IsSmallRow numbers.now.rows }
    requires row { row < length numbers.now.rows }
    requires col { suc col < numbers.now.width }
    requires rows { length out.old.rows ≡ length numbers.now.rows }
    requires width { out.old.width ≡ numbers.now.width }
    ensures rows { result ≡ true → new_rows col (fractions_of (slice_index_or numbers.now.rows row [])) 0 (map fractions_of numbers.now.rows) ≡ Ok (map fractions_of out.new.rows) }
    ensures small { result ≡ true → All IsSmallRow out.new.rows }
    ensures count { length out.new.rows ≡ length out.old.rows }
    ensures width { out.new.width ≡ out.old.width }
{
    let leaving = numbers.row(row);
    if leaving[col + 1] <= 0 {
        return false;
    }
    for i in 0..numbers.height() {
        if !out.update_row(i, col, numbers.row(i), leaving) {
            return false;
        }
    }
    true
}
