ghost use Rattle.std.specs.Prelude.{◌≡◌, ◌+◌, ◌≤◌, ◌<◌, ◌^◌, ◌-ℤ◌, ◌≤ℤ◌, unsigned_abs, ⊤, All, IfOk, OnOk, MatchOption, length, true, false};
ghost use Rattle.qm_math.specs.Ranges.{count_of};
ghost use Rattle.qm_model.specs.Boxes.{IsBox};
ghost use Rattle.qm_model.specs.Sound.{IsRowOver};
ghost use Rattle.qm_prop.specs.Courses.{is_dead, name_of, sweep_of, sweep_rows, swept, visited};
ghost use Rattle.qm_prop.specs.Narrower.{slack_of};

use crate::course::{Course, narrow_by_row};
use qm_game::{Bx, Game, Row, RowId, Var, least};
use qm_io::Memory;

/// Which of a game's two lists of rows.
#[derive(Clone, Copy)]
enum Kind {
    Rows,
    Uncertain,
}

/// The name of the row of this number.
fn name(kind: Kind, number: u32) -> RowId
    ensures { result ≡ name_of kind number }
{
    match kind {
        Kind::Rows => RowId::Row(number),
        Kind::Uncertain => RowId::Uncertain(number),
    }
}

/// How far a number lies below the row's right side.
fn below_right(row: &Row, least: i128) -> u128
    requires below { least ≤ℤ row.now.right }
    requires size { unsigned_abs row.now.right + unsigned_abs least ≤ 2 ^ 126 }
    ensures value { result ≡ count_of (row.now.right -ℤ least) }
    ensures size { result ≤ 2 ^ 126 }
{
    (row.right - least).unsigned_abs()
}

/// By how much the row's least value over the box falls short of its right side; `None` where the row is dead.
fn slack(vars: &[Var], row: &Row, bx: &Bx) -> Option<u128>
    requires bx { IsBox vars.now bx.now }
    requires row { IsRowOver vars.now row.now }
    ensures dead { MatchOption result (is_dead bx.now row.now ≡ true) (λ slack. is_dead bx.now row.now ≡ false) }
    ensures slack { MatchOption result ⊤ (λ slack. slack ≡ slack_of row.now bx.now) }
    ensures size { MatchOption result ⊤ (λ slack. slack ≤ 2 ^ 126) }
{
    let least = least(row, bx);
    if least > row.right {
        return None;
    }
    Some(below_right(row, least))
}

/// Narrows by one row, unless it is dead, and tells whether it is.
fn visit(vars: &[Var], id: RowId, row: &Row, course: &mut Course) -> Result<bool, Memory>
    requires bx { IsBox vars.now course.old.bx }
    requires row { IsRowOver vars.now row.now }
    ensures dead { IfOk result (λ dead. dead ≡ is_dead course.old.bx row.now) }
    ensures course { OnOk result (course.new ≡ visited vars.now id row.now course.old) }
    ensures bx { OnOk result (IsBox vars.now course.new.bx) }
{
    match slack(vars, row, &course.bx) {
        None => Ok(true),
        Some(slack) => {
            narrow_by_row(vars, id, row, slack, course)?;
            Ok(false)
        }
    }
}

/// Narrows by each row up to the first that is dead at its turn, and names that one.
fn sweep_rows(
    vars: &[Var],
    kind: Kind,
    rows: &[Row],
    course: &mut Course,
) -> Result<Option<RowId>, Memory>
    requires few { length rows.now < 2 ^ 29 }
    requires rows { All (IsRowOver vars.now) rows.now }
    requires bx { IsBox vars.now course.old.bx }
    ensures course { IfOk result (λ dead. swept course.new dead ≡ sweep_rows vars.now (name_of kind) 0 rows.now course.old) }
    ensures bx { OnOk result (IsBox vars.now course.new.bx) }
{
    for (number, row) in rows.iter().enumerate() {
        let id = name(kind, number as u32);
        if visit(vars, id, row, course)? {
            return Ok(Some(id));
        }
    }
    Ok(None)
}

/// Goes through the rows, then the uncertainty rows, up to the first that is dead at its turn.
pub(crate) fn sweep(game: &Game, course: &mut Course) -> Result<Option<RowId>, Memory>
    requires { IsBox game.now.vars course.old.bx }
    ensures course { IfOk result (λ dead. swept course.new dead ≡ sweep_of game.now course.old) }
    ensures bx { OnOk result (IsBox game.now.vars course.new.bx) }
{
    let problem = game.problem();
    let vars = problem.vars.as_slice();
    if let Some(id) = sweep_rows(vars, Kind::Rows, problem.rows.as_slice(), course)? {
        return Ok(Some(id));
    }
    sweep_rows(vars, Kind::Uncertain, problem.urows.as_slice(), course)
}
