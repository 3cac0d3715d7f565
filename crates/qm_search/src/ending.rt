ghost use Rattle.std.specs.Prelude.{◌≡◌, ◌≤◌, IfErr, IfOk, List, ℕ, ℤ, []};
ghost use Rattle.qm_certfile.specs.Passes.{Passes};
ghost use Rattle.qm_model.specs.declared.game.Problem.{Problem};
ghost use Rattle.qm_model.specs.Boxes.{whole_box_of};
ghost use Rattle.qm_model.specs.Plays.{IsPlay, whole_vars};
ghost use Rattle.qm_search.specs.Faults.{IsRightFault, IsSolved, IsWithinBudget};
ghost use Rattle.qm_search.specs.OutcomeSteps.{IsOutcome};
ghost use Rattle.qm_search.specs.RootSteps.{IsFirst, IsInside, IsPlayed, all_values};
ghost use Rattle.qm_search.specs.StopSteps.{IsRightStop};

use crate::fault::{SearchFault, Solved};
use crate::guides::Guides;
use crate::judge::{Judged, judge};
use crate::outcome::Outcome;
use crate::state::Search;
use crate::stop::Stop;
use crate::walk::visit;
use crate::window::all_values;
use qm_certfile::Certificate;
use qm_game::{Game, Place, whole_box};
use qm_io::List;
use qm_journal::Journal;
use qm_legal::{Legality, NamedPrefix, legal};
use std::alloc::Global;

/// The certificate of an outcome over the whole box, with a universal play.
fn certified(outcome: Outcome, legal: List<i64>) -> Certificate
    requires { IsInside outcome }
    ensures { (P : Problem) → IsOutcome P [] [] (whole_vars P) 0 (whole_box_of P.vars) all_values outcome → IsPlay P legal → Passes P result }
{
    match outcome {
        Outcome::Under(refute) => Certificate::Infeasible { legal, refute },
        Outcome::At {
            value,
            policy,
            refute,
        } => {
            // that it is in lowest terms
            let _lowest = value.den();
            Certificate::Optimal {
                value,
                legal,
                policy,
                refute,
            }
        }
        Outcome::Over { .. } => unreachable!(),
    }
}

/// The outcome of the whole box, where these values are a universal play: as it is judged, or else by a visit.
fn root_outcome(
    alloc: Global,
    game: &Game,
    search: &mut Search,
    play: &[i64],
) -> Result<Outcome, Stop>
    requires place { IsPlayed game.now search.old play.now }
    ensures outcome { IfOk result (IsOutcome game.now [] [] (whole_vars game.now) 0 (whole_box_of game.now.vars) all_values) }
    ensures stop { IfErr result (IsRightStop game.now search.new.journal) }
    ensures journal { IsWithinBudget game.now search.old.journal.limit search.new.journal }
{
    // that the journal has no more entries than its limit, here and below
    let _entries = search.journal.entries();
    let here = Place::at(game, 0);
    match judge(alloc, here, &search.bx, &None, &all_values())? {
        Judged::Known(outcome) => Ok(outcome),
        Judged::Open(best) => {
            let mut guides = Guides::new(alloc, game)?;
            let outcome = visit(
                alloc,
                here,
                search,
                &mut guides,
                0,
                play,
                &best,
                &all_values(),
            );
            let _entries = search.journal.entries();
            outcome
        }
    }
}

/// The certificate of a game: whether there is a universal play is asked before all else.
fn certificate(alloc: Global, game: &Game, search: &mut Search) -> Result<Certificate, Stop>
    requires { IsFirst game.now search.old }
    ensures passes { IfOk result (Passes game.now) }
    ensures stop { IfErr result (IsRightStop game.now search.new.journal) }
    ensures journal { IsWithinBudget game.now search.old.journal.limit search.new.journal }
{
    // that the problem is in order
    let _problem = game.problem();
    let named = NamedPrefix {
        parent: 0,
        value: None,
    };
    let answer = legal(alloc, game, &search.bx, named, &mut search.journal);
    // that the journal has no more entries than its limit
    let _entries = search.journal.entries();
    match answer? {
        Legality::Illegal(tree) => Ok(Certificate::Empty(tree)),
        Legality::Completion(play) => {
            let outcome = root_outcome(alloc, game, search, play.as_slice())?;
            Ok(certified(outcome, play))
        }
    }
}

/// Why there is no certificate, with the journal where that is spent.
fn fault_of(stop: Stop, journal: Journal) -> SearchFault
    ensures { (P : Problem) (limit : ℕ) → IsWithinBudget P limit journal → IsRightStop P journal stop → IsRightFault P limit result }
{
    match stop {
        Stop::Spent => SearchFault::Spent(journal),
        Stop::Leave(leave) => SearchFault::Leave(leave),
        Stop::Memory => SearchFault::Memory,
    }
}

/// How the game ends, by a certificate that passes, and the journal of the search, which is lawful and has at most as many
/// entries as the limit, from 1 to 50,000,000. `Spent`, only with a lawful journal of as many entries, so never where the
/// limit is enough for every search of the game; `Leave`, only with a complete legal prefix whose leaf run leaves the
/// range as it says, so never without continuous variables; `Memory`, where there is none for it.
pub fn solve(alloc: Global, game: &Game, limit: u64) -> Result<Solved, SearchFault>
    requires some { 1 ≤ limit }
    requires few { limit ≤ 50000000 }
    ensures solved { IfOk result (IsSolved game.now limit) }
    ensures fault { IfErr result (IsRightFault game.now limit) }
{
    // that the problem is in order
    let _problem = game.problem();
    let mut search = Search {
        bx: whole_box(alloc, game)?,
        journal: Journal::new(alloc, limit),
    };
    let answer = certificate(alloc, game, &mut search);
    let Search { bx: _, journal } = search;
    match answer {
        Ok(certificate) => Ok(Solved {
            certificate,
            journal,
        }),
        Err(stop) => Err(fault_of(stop, journal)),
    }
}
