ghost use Rattle.std.specs.Prelude.{◌≡◌, ◌<◌, ◌^◌, All, IsTrue, length};
ghost use Rattle.qm_model.specs.Boxes.{IsBox};
ghost use Rattle.qm_model.specs.Plays.{BeginWithin};
ghost use Rattle.qm_model.specs.Sound.{IsRowOver};

use probe_words::{counted, row_word};
use qm_game::{Bx, Game, Row, Var, form_at, least, most, row_dead, row_holds};
use std::alloc::{AllocError, Global};

/// What each row and uncertainty row comes to over the box and is to be at most, and the first of them that is dead.
pub fn rows_line(alloc: Global, game: &Game, bx: &Bx) -> Result<String, AllocError>
    requires { IsBox game.now.vars bx.now }
{
    let problem = game.problem();
    let vars = problem.vars.as_slice();
    let rows = ends_words(alloc, vars, "r", problem.rows.as_slice(), bx)?;
    let urows = ends_words(alloc, vars, "u", problem.urows.as_slice(), bx)?;
    match row_dead(game, bx) {
        Some(row) => {
            let row = row_word(alloc, row)?;
            format!(in alloc; "{rows}{urows}dead {row}")
        }
        None => format!(in alloc; "{rows}{urows}none is dead"),
    }
}

fn ends_words(
    alloc: Global,
    vars: &[Var],
    letter: &str,
    rows: &[Row],
    bx: &Bx,
) -> Result<String, AllocError>
    requires rows { All (IsRowOver vars.now) rows.now }
    requires few { length rows.now < 2 ^ 29 }
    requires bx { IsBox vars.now bx.now }
{
    let mut out = String::new(alloc);
    for (number, row) in rows.iter().enumerate() {
        let name = counted(alloc, letter, number as u32)?;
        let ends = ends_word(alloc, vars, row, bx)?;
        let words = format!(in alloc; "{name} {ends}, ")?;
        out.push_str(words.as_str())?;
    }
    Ok(out)
}

fn ends_word(alloc: Global, vars: &[Var], row: &Row, bx: &Bx) -> Result<String, AllocError>
    requires row { IsRowOver vars.now row.now }
    requires bx { IsBox vars.now bx.now }
{
    let least = least(row, bx);
    let most = most(row, bx);
    let right = row.right;
    format!(in alloc; "{least}..{most}<={right}")
}

/// What each row and uncertainty row comes to at values of all variables, and whether it holds.
pub fn point_line(alloc: Global, game: &Game, words: &str) -> Result<String, AllocError> {
    let mut values = Vec::new(alloc);
    for word in words.split(' ') {
        match word.parse::<i64>() {
            Ok(value) => values.push(value)?,
            Err(_) => return String::from_str(alloc, "?"),
        }
    }
    let vars = game.problem().vars.as_slice();
    if values.len() != vars.len() || !begin_within(vars, values.as_slice()) {
        return String::from_str(alloc, "point outside");
    }
    values_line(alloc, game, values.as_slice())
}

fn begin_within(vars: &[Var], values: &[i64]) -> bool
    ensures { IsTrue result → BeginWithin vars.now values.now }
{
    if values.len() > vars.len() {
        return false;
    }
    for (at, value) in values.iter().enumerate() {
        if *value < vars[at].low || *value > vars[at].high {
            return false;
        }
    }
    true
}

fn values_line(alloc: Global, game: &Game, values: &[i64]) -> Result<String, AllocError>
    requires count { length values.now ≡ length game.now.vars }
    requires within { BeginWithin game.now.vars values.now }
{
    let problem = game.problem();
    let vars = problem.vars.as_slice();
    let rows = values_words(alloc, vars, "r", problem.rows.as_slice(), values)?;
    let urows = values_words(alloc, vars, "u", problem.urows.as_slice(), values)?;
    let words = format!(in alloc; "{rows}{urows}")?;
    String::from_str(alloc, words.as_str().strip_suffix(", ").unwrap_or("no row"))
}

fn values_words(
    alloc: Global,
    vars: &[Var],
    letter: &str,
    rows: &[Row],
    values: &[i64],
) -> Result<String, AllocError>
    requires rows { All (IsRowOver vars.now) rows.now }
    requires few { length rows.now < 2 ^ 29 }
    requires count { length values.now ≡ length vars.now }
    requires within { BeginWithin vars.now values.now }
{
    let mut out = String::new(alloc);
    for (number, row) in rows.iter().enumerate() {
        let name = counted(alloc, letter, number as u32)?;
        let value = value_word(alloc, vars, row, values)?;
        let words = format!(in alloc; "{name} {value}, ")?;
        out.push_str(words.as_str())?;
    }
    Ok(out)
}

fn value_word(alloc: Global, vars: &[Var], row: &Row, values: &[i64]) -> Result<String, AllocError>
    requires row { IsRowOver vars.now row.now }
    requires count { length values.now ≡ length vars.now }
    requires within { BeginWithin vars.now values.now }
{
    let value = form_at(row.terms.as_slice(), values);
    let right = row.right;
    let holds = if row_holds(row, values) {
        "holds"
    } else {
        "doesn't hold"
    };
    format!(in alloc; "{value}<={right} {holds}")
}
