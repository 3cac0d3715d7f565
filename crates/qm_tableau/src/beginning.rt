ghost use Rattle.std.specs.Prelude.{◌≡◌, ◌<◌, ◌≤◌, ◌^◌, ◌++◌, [], All, IfOk, OnOk, if◌then◌else◌, int_lt, length, map, suc, pos, unsigned_abs, ◌+◌, ◌*◌, ℕ};
ghost use Rattle.qm_model.specs.Boxes.{IsBox};
ghost use Rattle.qm_model.specs.Linear.{IsOrdered, coefficient};
ghost use Rattle.qm_model.specs.Sound.{IsRowOver, IsSound};
ghost use Rattle.qm_tableau.specs.Quantities.{quantities};
ghost use Rattle.qm_tableau.specs.FirstTable.{HasRoom, columns_from, corner, first_row, first_table, raises, table_at};

use crate::entries::Entries;
use crate::first_rows::push_entries;
use crate::rows::Rows;
use crate::sparse::next_coefficient;
use crate::tableau::Tableau;
use qm_game::Bx;
use qm_io::{List, Memory};
use qm_model::{Game, Problem, Range, Row, Term};
use std::alloc::Global;

fn is_positive(n: i128) -> bool
    ensures { result ≡ int_lt (pos 0) n }
{
    n > 0
}

/// Whether each variable raises the objective.
fn raises(alloc: Global, objective: &[Term], bx: &[Range]) -> Result<List<bool>, Memory>
    requires ordered { IsOrdered objective.now }
    requires narrow { (var : ℕ) → unsigned_abs (coefficient objective.now var) < 2 ^ 127 }
    requires few { length bx.now < 2 ^ 29 }
    ensures { IfOk result (λ highs. highs ≡ raises objective.now 0 bx.now) }
{
    let mut highs = List::new(alloc);
    let mut rest = objective;
    for (var, _) in bx.iter().enumerate() {
        let (coefficient, later) = next_coefficient(rest, var as u32);
        highs.push(is_positive(coefficient))?;
        rest = later;
    }
    Ok(highs)
}

fn end_of(range: Range, high: bool) -> i64
    ensures { result ≡ (if high then range.high else range.low) }
{
    if high { range.high } else { range.low }
}

/// The corner of the box with these ends.
fn corner(alloc: Global, highs: &[bool], bx: &[Range]) -> Result<List<i64>, Memory>
    requires { length highs.now ≡ length bx.now }
    ensures { IfOk result (λ values. values ≡ corner highs.now bx.now) }
{
    let mut values = List::new(alloc);
    for (var, high) in highs.iter().enumerate() {
        values.push(end_of(bx[var], *high))?;
    }
    Ok(values)
}

fn column_of(var: u32, high: bool) -> u32
    requires { var < 2 ^ 29 }
    ensures { result ≡ (if high then 2 * var + 1 else 2 * var + 2) }
{
    if high { 2 * var + 1 } else { 2 * var + 2 }
}

/// The rows that the columns belong to.
fn columns(alloc: Global, highs: &[bool]) -> Result<List<u32>, Memory>
    requires { length highs.now < 2 ^ 29 }
    ensures { IfOk result (λ columns. columns ≡ columns_from 0 highs.now) }
{
    let mut columns = List::new(alloc);
    for (var, high) in highs.iter().enumerate() {
        columns.push(column_of(var as u32, *high))?;
    }
    Ok(columns)
}

/// How many rows the first tableau has.
#[tactic(auto, using(crate::proofs::Rooms::count_quantities))]
fn height_of(problem: &Problem, cuts: &[Row], bx: &[Range]) -> usize
    requires vars { length bx.now < 2 ^ 29 }
    requires rows { length problem.now.rows < 2 ^ 29 }
    requires urows { length problem.now.urows < 2 ^ 29 }
    requires cuts { length cuts.now < 2 ^ 29 }
    ensures count { result ≡ length (quantities problem.now cuts.now bx.now) }
    ensures few { result < 2 ^ 32 }
{
    1 + 2 * bx.len() + problem.rows.len() + problem.urows.len() + cuts.len()
}

/// The rows of all quantities, in columns of these ends.
#[tactic(auto, using(crate::proofs::Rooms::count_quantities))]
fn first_numbers(
    alloc: Global,
    problem: &Problem,
    cuts: &[Row],
    bx: &[Range],
    highs: &[bool],
    values: &[i64],
) -> Result<Rows, Memory>
    requires few { length highs.now < 2 ^ 29 }
    requires few_values { length values.now < 2 ^ 29 }
    requires values { length values.now ≡ length bx.now }
    requires few_rows { length problem.now.rows < 2 ^ 29 }
    requires few_urows { length problem.now.urows < 2 ^ 29 }
    requires few_cuts { length cuts.now < 2 ^ 29 }
    requires objective { HasRoom values.now problem.now.constant problem.now.terms }
    requires rows { All (λ row. HasRoom values.now row.right row.terms) problem.now.rows }
    requires urows { All (λ row. HasRoom values.now row.right row.terms) problem.now.urows }
    requires cuts { All (λ row. HasRoom values.now row.right row.terms) cuts.now }
    ensures few { IfOk result (λ r. length r.rows < 2 ^ 32) }
    ensures rows { IfOk result (λ r. r ≡ record { width = suc (length highs.now); rows = map (first_row highs.now values.now) (quantities problem.now cuts.now bx.now) }) }
{
    let width = highs.len() + 1;
    let height = height_of(problem, cuts, bx);
    let mut entries = Entries::new(alloc, height * width)?;
    push_entries(&mut entries, problem, cuts, bx, highs, values)?;
    let numbers = entries.into_rows(alloc, width, height)?;
    Ok(numbers)
}

/// The tableau whose columns are of these ends.
#[tactic(auto, using(crate::proofs::Rooms::few_ranges, crate::proofs::Rooms::few_values, crate::proofs::Rooms::room_of_objective, crate::proofs::Rooms::room_of_rows, crate::proofs::Rooms::room_of_urows))]
fn table_at(
    alloc: Global,
    problem: &Problem,
    cuts: &[Row],
    bx: &[Range],
    highs: &[bool],
) -> Result<Tableau, Memory>
    requires sound { IsSound problem.now }
    requires cuts { All (IsRowOver problem.now.vars) cuts.now }
    requires few_cuts { length cuts.now < 2 ^ 29 }
    requires ranges { IsBox problem.now.vars bx.now }
    requires highs { length highs.now ≡ length bx.now }
    ensures { IfOk result (λ t. t ≡ table_at problem.now cuts.now bx.now highs.now) }
{
    let values = corner(alloc, highs, bx)?;
    let columns = columns(alloc, highs)?;
    let numbers = first_numbers(alloc, problem, cuts, bx, highs, values.as_slice())?;
    Ok(Tableau::new(columns, numbers))
}

/// The tableau with a column for each variable: that of its distance from its high end where it raises the
/// objective, else from its low end. `Memory`, where there is none for it and for the room that pivots
/// need; no operation leaves.
#[tactic(auto, using(crate::proofs::Rooms::few_ranges, crate::proofs::Rooms::objective_narrow, crate::proofs::Rooms::length_raises))]
pub fn first(alloc: Global, game: &Game, cuts: &[Row], bx: &Bx) -> Result<Tableau, Memory>
    requires cuts { All (IsRowOver game.now.vars) cuts.now }
    requires few_cuts { length cuts.now < 2 ^ 29 }
    requires bx { IsBox game.now.vars bx.now }
    ensures { IfOk result (λ t. t ≡ first_table game.now cuts.now bx.now) }
{
    let problem = game.problem();
    let ranges = bx.as_slice();
    let highs = raises(alloc, problem.terms.as_slice(), ranges)?;
    table_at(alloc, problem, cuts, ranges, highs.as_slice())
}
