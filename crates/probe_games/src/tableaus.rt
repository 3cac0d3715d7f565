ghost use Rattle.std.specs.Prelude.{◌<◌, ◌^◌, All, length};
ghost use Rattle.qm_model.specs.Boxes.{IsBox};
ghost use Rattle.qm_model.specs.Sound.{IsRowOver};

use probe_words::{fraction_text, leaves_text};
use qm_game::{Bx, Game, Row};
use qm_tableau::{Choice, LeavesAt, Tableau, first};
use std::alloc::{AllocError, Global};

/// The tableau that the pivots `ROW/COLUMN` lead to from the first one with these cuts over the box: the rows that its
/// columns belong to, its entries, and what the rule names. A pivot that leaves is told, and the tableau before it.
pub fn tableau_line(
    alloc: Global,
    game: &Game,
    cuts: &[Row],
    bx: &Bx,
    pivots: &str,
) -> Result<String, AllocError>
    requires cuts { All (IsRowOver game.now.vars) cuts.now }
    requires few_cuts { length cuts.now < 2 ^ 29 }
    requires bx { IsBox game.now.vars bx.now }
{
    match first(alloc, game, cuts, bx) {
        Ok(tableau) => line_after(alloc, tableau, pivots),
        Err(_) => String::from_str(alloc, "memory"),
    }
}

fn line_after(alloc: Global, tableau: Tableau, pivots: &str) -> Result<String, AllocError> {
    let mut tableau = tableau;
    for word in pivots.split(' ') {
        match pivot_by(&mut tableau, word) {
            Some(Ok(())) => {}
            Some(Err(leaves)) => {
                let leaves = leaves_at_text(alloc, leaves)?;
                let tableau = tableau_text(alloc, &tableau)?;
                return format!(in alloc; "{leaves}, {tableau}");
            }
            None => return String::from_str(alloc, "no pivot"),
        }
    }
    tableau_text(alloc, &tableau)
}

// What the pivot answers, where there is such a one; without a word nothing is done.
fn pivot_by(tableau: &mut Tableau, word: &str) -> Option<Result<(), LeavesAt>> {
    if word.is_empty() {
        return Some(Ok(()));
    }
    let (row, col) = word.split_once('/')?;
    let row = row.parse::<u32>().ok()?;
    let col = col.parse::<u32>().ok()?;
    if row as usize >= tableau.height() || col == 0 || col as usize >= tableau.width() {
        return None;
    }
    if tableau.entry(row, col).num() == 0 {
        return None;
    }
    Some(tableau.pivot(row, col))
}

fn tableau_text(alloc: Global, tableau: &Tableau) -> Result<String, AllocError> {
    let columns = column_words(alloc, tableau.rows_of_columns())?;
    let rows = rows_text(alloc, tableau)?;
    let choice = choice_text(alloc, tableau.choose())?;
    format!(in alloc; "columns{columns}:{rows}, {choice}")
}

fn column_words(alloc: Global, columns: &[u32]) -> Result<String, AllocError> {
    let mut out = String::new(alloc);
    for column in columns {
        let word = format!(in alloc; " {column}")?;
        out.push_str(word.as_str())?;
    }
    Ok(out)
}

fn rows_text(alloc: Global, tableau: &Tableau) -> Result<String, AllocError> {
    let mut out = String::new(alloc);
    for row in 0..tableau.height() {
        if row > 0 {
            out.push_str(" /")?;
        }
        let entries = row_words(alloc, tableau, row as u32)?;
        out.push_str(entries.as_str())?;
    }
    Ok(out)
}

fn row_words(alloc: Global, tableau: &Tableau, row: u32) -> Result<String, AllocError>
    requires { row < length tableau.now.rows }
{
    let mut out = String::new(alloc);
    for col in 0..tableau.width() {
        out.push(' ')?;
        out.push_str(fraction_text(alloc, tableau.entry(row, col as u32))?.as_str())?;
    }
    Ok(out)
}

fn choice_text(alloc: Global, choice: Result<Choice, LeavesAt>) -> Result<String, AllocError> {
    match choice {
        Ok(Choice::Done) => String::from_str(alloc, "done"),
        Ok(Choice::VoidRow(row)) => format!(in alloc; "row {row} is void"),
        Ok(Choice::Pivot(row, col)) => format!(in alloc; "pivot {row}/{col}"),
        Err(leaves) => leaves_at_text(alloc, leaves),
    }
}

fn leaves_at_text(alloc: Global, at: LeavesAt) -> Result<String, AllocError> {
    let row = at.row;
    let col = at.col;
    let operation = leaves_text(alloc, at.leaves)?;
    format!(in alloc; "leaves at {row} {col} {operation}")
}
