ghost use Rattle.std.specs.Prelude.{All, IfOk, IfSome};
ghost use Rattle.qm_model.specs.Boxes.{IsBox};
ghost use Rattle.qm_model.specs.Sound.{IsRowOver};

use crate::first_values::{is_universal_turn, whole_vars};
use crate::stands::Stand;
use qm_game::{Bx, Game, Row, Var, least, try_narrow, whole_box};
use qm_io::{List, Memory};
use qm_model::single;
use std::alloc::Global;

/// Whether the universal values at this position are within bounds, and no uncertainty row is dead over their box.
pub fn is_alive_play(alloc: Global, game: &Game, stand: &Stand) -> Result<bool, Memory> {
    let us = universal_values(alloc, game, stand)?;
    match play_box(alloc, game, us.as_slice())? {
        Some(bx) => {
            let problem = game.problem();
            Ok(are_alive(problem.vars.as_slice(), &bx, problem.urows.as_slice()))
        }
        None => Ok(false),
    }
}

fn universal_values(alloc: Global, game: &Game, stand: &Stand) -> Result<List<i64>, Memory> {
    let mut us = List::new(alloc);
    for (at, value) in stand.prefix().iter().enumerate() {
        if is_universal_turn(whole_vars(game), at) {
            us.push(*value)?;
        }
    }
    us.append(stand.steps())?;
    Ok(us)
}

// The box in which the first universal variables have these values, where they are within bounds.
fn play_box(alloc: Global, game: &Game, us: &[i64]) -> Result<Option<Bx>, Memory>
    ensures { IfOk result (λ found. IfSome found (IsBox game.now.vars)) }
{
    let mut bx = whole_box(alloc, game)?;
    let mut next = 0;
    for at in 0..whole_vars(game).len() {
        if is_universal_turn(whole_vars(game), at) && next < us.len() {
            if !try_narrow(&mut bx, at as u32, single(us[next])) {
                return Ok(None);
            }
            next += 1;
        }
    }
    if next == us.len() {
        Ok(Some(bx))
    } else {
        Ok(None)
    }
}

fn are_alive(vars: &[Var], bx: &Bx, rows: &[Row]) -> bool
    requires rows { All (IsRowOver vars.now) rows.now }
    requires bx { IsBox vars.now bx.now }
{
    for row in rows {
        if !is_alive(vars, bx, row) {
            return false;
        }
    }
    true
}

fn is_alive(vars: &[Var], bx: &Bx, row: &Row) -> bool
    requires row { IsRowOver vars.now row.now }
    requires bx { IsBox vars.now bx.now }
{
    least(row, bx) <= row.right
}
