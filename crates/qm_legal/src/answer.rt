ghost use Rattle.std.specs.Prelude.{◌≡◌, Err, IfOk, IsTrue, false, length};
ghost use Rattle.qm_journal.specs.Lawful.{IsLawful, is_restricted};
ghost use Rattle.qm_journal.specs.Questions.{IsNewQuestion, WentOn, named_prefix};
ghost use Rattle.qm_legal.specs.declared.fault.LegalFault.TheVariants as fault;
ghost use Rattle.qm_legal.specs.Queries.{IsExact, IsQueryOf, IsRightLegality};
ghost use Rattle.qm_legal.specs.SearchSteps.{IsFound};
ghost use Rattle.qm_legal.specs.JournalSteps.{Answered, IsOpenBox};

use crate::completion::completion;
use crate::copied::copied;
use crate::fault::LegalFault;
use crate::guess::guess;
use crate::guide::guide;
use crate::legality::Legality;
use crate::named::{NamedPrefix, depth_of, query_of};
use crate::search::search;
use crate::shown::closed_at_once;
use qm_game::{Bx, Game, Place};
use qm_journal::Journal;
use qm_trees::Empty;
use std::alloc::Global;

/// The tree that shows that no play is left, or none, and the box with a play's values. First values that no row refuses
/// are tried without an entry.
fn looked_for(
    alloc: Global,
    here: Place<'_>,
    named: NamedPrefix,
    bx: &mut Bx,
    journal: &mut Journal,
) -> Result<Option<Empty>, LegalFault>
    requires lawful { IsLawful here.game.now journal.old.entries }
    requires new { IsNewQuestion here.game.now journal.old.entries named.parent named.value }
    requires depth { here.depth ≡ length (named_prefix journal.old.entries named.parent named.value) }
    requires bx { IsQueryOf here.game.now (named_prefix journal.old.entries named.parent named.value) bx.old }
    requires still_open { IsOpenBox here.game.now here.depth bx.old }
    ensures found { IfOk result (IsFound here.entry.game.now here.entry.rest.now here.entry.depth bx.old bx.new) }
    ensures answered { Answered here.entry.game.now named journal.old journal.new }
    ensures spent { result ≡ Err fault.Spent → (length journal.new.entries ≡ journal.new.limit) × IsTrue (is_restricted here.entry.game.now) }
{
    // that the problem is in order
    let _problem = here.game.problem();
    let mut tried = copied(alloc, bx)?;
    if guess(here, &mut tried) {
        *bx = tried;
        return Ok(None);
    }
    let guide = guide(alloc, here.game, bx)?;
    search(alloc, here, query_of(named), guide.as_slice(), bx, journal)
}

/// The same, where it is asked first whether a tree shows it at once.
fn answered(
    alloc: Global,
    here: Place<'_>,
    named: NamedPrefix,
    bx: &mut Bx,
    journal: &mut Journal,
) -> Result<Option<Empty>, LegalFault>
    requires lawful { IsLawful here.game.now journal.old.entries }
    requires new { IsNewQuestion here.game.now journal.old.entries named.parent named.value }
    requires depth { here.depth ≡ length (named_prefix journal.old.entries named.parent named.value) }
    requires bx { IsQueryOf here.game.now (named_prefix journal.old.entries named.parent named.value) bx.old }
    ensures found { IfOk result (IsFound here.entry.game.now here.entry.rest.now here.entry.depth bx.old bx.new) }
    ensures answered { Answered here.entry.game.now named journal.old journal.new }
    ensures spent { result ≡ Err fault.Spent → (length journal.new.entries ≡ journal.new.limit) × IsTrue (is_restricted here.entry.game.now) }
{
    match closed_at_once(alloc, here, bx)? {
        Some(tree) => Ok(Some(tree)),
        None => looked_for(alloc, here, named, bx, journal),
    }
}

/// Whether the values of the universal variables of the named prefix, which are set in the box, can be completed to a
/// universal play. The completion has a value for each universal variable behind that prefix. An illegal tree is right
/// over the box, and no operation leaves.
/// The journal's entries stay. Behind them may come the query entry of the named prefix, and steps that lead back to it;
/// for the empty prefix steps alone, that lead back to 0. None comes where the game has no uncertainty row
/// and no empty universal range. `Spent`, only where the journal is full and an entry is needed; `Memory`, where
/// there is none: then too the journal is lawful, with the entries that were made.
pub fn legal(
    alloc: Global,
    game: &Game,
    bx: &Bx,
    named: NamedPrefix,
    journal: &mut Journal,
) -> Result<Legality, LegalFault>
    requires lawful { IsLawful game.now journal.old.entries }
    requires new { IsNewQuestion game.now journal.old.entries named.parent named.value }
    requires bx { IsQueryOf game.now (named_prefix journal.old.entries named.parent named.value) bx.now }
    ensures answer { IfOk result (IsRightLegality game.now (length (named_prefix journal.old.entries named.parent named.value)) bx.now) }
    ensures exact { IfOk result (IsExact game.now (length (named_prefix journal.old.entries named.parent named.value)) bx.now) }
    ensures went_on { WentOn named.parent named.value journal.old.entries journal.new.entries }
    ensures lawful { IsLawful game.now journal.new.entries }
    ensures limit { journal.new.limit ≡ journal.old.limit }
    ensures unrestricted { is_restricted game.now ≡ false → journal.new.entries ≡ journal.old.entries }
    ensures spent { result ≡ Err fault.Spent → (length journal.new.entries ≡ journal.new.limit) × IsTrue (is_restricted game.now) }
{
    // that the problem is in order
    let _problem = game.problem();
    let here = Place::at(game, depth_of(game, journal, named));
    let mut tried = copied(alloc, bx)?;
    match answered(alloc, here, named, &mut tried, journal)? {
        Some(tree) => Ok(Legality::Illegal(tree)),
        None => Ok(Legality::Completion(completion(alloc, here, &tried)?)),
    }
}
