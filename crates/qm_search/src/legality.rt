ghost use Rattle.std.specs.Prelude.{◌≡◌, ◌+◌, ◌↔◌, ◌⊎◌, [], ◌<◌, IfErr, IfOk, IsTrue, drop, length, slice_set};
ghost use Rattle.qm_model.specs.Ranges.{single};
ghost use Rattle.qm_model.specs.declared.variable.Player.TheVariants.{All as Universal};
ghost use Rattle.qm_legal.specs.Queries.{IsRightLegality};
ghost use Rattle.qm_legal.specs.SearchSteps.{SetsNext};
ghost use Rattle.qm_search.specs.PlaceSteps.{next_value};
ghost use Rattle.qm_search.specs.StopSteps.{IsRightStop};
ghost use Rattle.qm_search.specs.VisitSteps.{IsNewValuePlace, Moved, WentAsked};

use crate::state::Search;
use crate::stop::Stop;
use qm_game::{Game, Place};
use qm_io::{List, Memory};
use qm_legal::{Legality, NamedPrefix, legal};
use qm_model::single;
use std::alloc::Global;

/// Whether the value goes on as the known completion does: it begins with it, or nothing but the bounds is asked of
/// the universal player.
pub fn is_known(game: &Game, completion: &[i64], value: i64) -> bool
    requires { 0 < length completion.now }
    ensures { IsTrue result ↔ ((game.now.urows ≡ []) ⊎ (value ≡ next_value completion.now)) }
{
    game.problem().urows.is_empty() || value == completion[0]
}

/// The completion without its first value.
pub fn later_values(completion: &[i64]) -> &[i64]
    requires { 0 < length completion.now }
    ensures { result.now ≡ drop 1 completion.now }
{
    &completion[1..]
}

/// A list of these values.
pub fn list_of(alloc: Global, values: &[i64]) -> Result<List<i64>, Memory>
    ensures { IfOk result (λ list. list ≡ values.now) }
{
    let mut list = List::new(alloc);
    list.append(values)?;
    Ok(list)
}

/// Values that complete this value of the next variable behind the entry, or why no universal play has it. The journal
/// may go on by a question about it.
pub fn legality(
    alloc: Global,
    here: Place<'_>,
    search: &mut Search,
    entry: u32,
    value: i64,
) -> Result<Legality, Stop>
    requires player { SetsNext Universal here.rest.now }
    requires place { IsNewValuePlace here.game.now here.depth search.old entry value }
    ensures legality { IfOk result (IsRightLegality here.entry.game.now (here.entry.depth + 1) (slice_set search.old.bx here.entry.depth (single value))) }
    ensures stop { IfErr result (IsRightStop here.entry.game.now search.new.journal) }
    ensures moved { Moved here.entry.game.now (WentAsked entry value) search.old search.new }
{
    let named = NamedPrefix {
        parent: entry,
        value: Some(value),
    };
    let before = here.range(&search.bx);
    here.put(&mut search.bx, single(value));
    let answer = legal(alloc, here.game, &search.bx, named, &mut search.journal);
    here.put(&mut search.bx, before);
    Ok(answer?)
}
