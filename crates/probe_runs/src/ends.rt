ghost use Rattle.std.specs.Prelude.{◌<◌, ◌^◌, All, length};
ghost use Rattle.qm_model.specs.Boxes.{IsBox};
ghost use Rattle.qm_model.specs.Sound.{IsRowOver};

use probe_words::{fraction_text, fraction_words, leaves_text, row_word};
use qm_game::{Bx, Game, Row, has_empty};
use qm_simplex::{LeavePlace, LpEnd, LpFault, RunLeaves, solve_lp};
use qm_trees::Combo;
use std::alloc::{AllocError, Global};

/// How the run with these cuts over the box ends, in one line.
pub fn run_line(alloc: Global, game: &Game, cuts: &[Row], bx: &Bx) -> Result<String, AllocError>
    requires cuts { All (IsRowOver game.now.vars) cuts.now }
    requires few_cuts { length cuts.now < 2 ^ 29 }
    requires bx { IsBox game.now.vars bx.now }
{
    if has_empty(bx) {
        return String::from_str(alloc, "box empty");
    }
    end_line(alloc, &solve_lp(alloc, game, cuts, bx))
}

fn end_line(alloc: Global, end: &Result<LpEnd, LpFault>) -> Result<String, AllocError> {
    match end {
        Ok(
            LpEnd::Best {
                point,
                value,
                combo,
                pivots,
            },
        ) => {
            let value = fraction_text(alloc, *value)?;
            let point = fraction_words(alloc, point.as_slice())?;
            let combo = combo_words(alloc, combo)?;
            format!(in alloc; "best {value} point{point} close{combo} pivots {pivots}")
        }
        Ok(LpEnd::Void { combo, pivots }) => {
            let combo = combo_words(alloc, combo)?;
            format!(in alloc; "void close{combo} pivots {pivots}")
        }
        Err(LpFault::Leaves(run)) => leaves_line(alloc, run),
        Err(LpFault::Memory) => String::from_str(alloc, "memory"),
    }
}

/// The pivots until an operation leaves, where it belongs, and the operation.
pub fn leaves_line(alloc: Global, run: &RunLeaves) -> Result<String, AllocError> {
    let pivots = pivot_words(alloc, run.pivots.as_slice())?;
    let at = place_words(alloc, run.at)?;
    let operation = leaves_text(alloc, run.leaves)?;
    format!(in alloc; "leaves pivots{pivots} at {at} {operation}")
}

/// As certificates spell it.
pub fn combo_words(alloc: Global, combo: &Combo) -> Result<String, AllocError> {
    let mut out = String::from_str(alloc, if combo.objective() { " o" } else { "" })?;
    for entry in combo.entries() {
        let row = row_word(alloc, entry.row)?;
        let by = fraction_text(alloc, entry.by)?;
        let word = format!(in alloc; " {row}={by}")?;
        out.push_str(word.as_str())?;
    }
    Ok(out)
}

fn pivot_words(alloc: Global, pivots: &[(u32, u32)]) -> Result<String, AllocError> {
    let mut out = String::new(alloc);
    for (row, col) in pivots {
        let word = format!(in alloc; " {row}/{col}")?;
        out.push_str(word.as_str())?;
    }
    Ok(out)
}

fn place_words(alloc: Global, at: LeavePlace) -> Result<String, AllocError> {
    match at {
        LeavePlace::Quotient(row, col) => format!(in alloc; "quotient {row} {col}"),
        LeavePlace::Entry(row, col) => format!(in alloc; "entry {row} {col}"),
        LeavePlace::Value => String::from_str(alloc, "value"),
        LeavePlace::Point(var) => format!(in alloc; "point {var}"),
        LeavePlace::RowSum(row) => format!(in alloc; "row {row}"),
        LeavePlace::Objective => String::from_str(alloc, "objective"),
        LeavePlace::Combination => String::from_str(alloc, "combination"),
    }
}
