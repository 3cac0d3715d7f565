ghost use Rattle.std.specs.Prelude.{◌++◌, IfOk, IfSome, IsTrue};
ghost use Rattle.qm_model.specs.Plays.{IsPlay};
ghost use Rattle.qm_legal.specs.JournalSteps.{IsOpenBox};
ghost use Rattle.qm_legal.specs.Queries.{IsQuery, set_values};

use crate::completion::{completion, some_universal_empty};
use crate::copied::copied;
use crate::dead::dead_row;
use crate::guess::guess;
use qm_game::{Bx, Place};
use qm_io::{List, Memory};
use std::alloc::Global;

/// Whether no universal range is empty and no uncertainty row dead.
fn is_open(here: Place<'_>, bx: &Bx) -> bool
    requires { IsQuery here.game.now here.depth bx.now }
    ensures { IsTrue result → IsOpenBox here.entry.game.now here.entry.depth bx.now }
{
    // that the problem is in order
    let _problem = here.game.problem();
    let first = Place::at(here.game, 0);
    if some_universal_empty(first.rest, bx.as_slice()) {
        return false;
    }
    match dead_row(here.game, bx) {
        Some(_) => false,
        None => true,
    }
}

/// Values of the later universal variables with which those that are set are a universal play, where the first value of
/// each that no uncertainty row refuses will do. It asks no question, so no journal goes on; where it has none, there may
/// still be a play.
pub fn completed_at_once(
    alloc: Global,
    here: Place<'_>,
    bx: &Bx,
) -> Result<Option<List<i64>>, Memory>
    requires { IsQuery here.game.now here.depth bx.now }
    ensures { IfOk result (λ found. IfSome found (λ values. IsPlay here.entry.game.now (set_values here.entry.game.now here.entry.depth bx.now ++ values))) }
{
    // that the problem is in order
    let _problem = here.game.problem();
    if !is_open(here, bx) {
        return Ok(None);
    }
    let mut tried = copied(alloc, bx)?;
    if !guess(here, &mut tried) {
        return Ok(None);
    }
    Ok(Some(completion(alloc, here, &tried)?))
}
