ghost use Rattle.std.specs.Prelude.{◌≡◌, ◌≤◌, [], IfOk, IsOkAnd, IsTrue, OnOk};
ghost use Rattle.qm_model.specs.Boxes.{IsBox, whole_box_of};
ghost use Rattle.qm_model.specs.Legal.{IsLegal};
ghost use Rattle.qm_journal.specs.Lawful.{IsLawful};
ghost use Rattle.qm_legal.specs.Queries.{IsCompletion};

use crate::entries::entry_words;
use probe_words::{NoAnswer, number_words};
use qm_game::{Bx, Game, whole_box};
use qm_journal::Journal;
use qm_legal::{LegalFault, Legality, NamedPrefix, legal};
use std::alloc::Global;

/// The most entries that a journal may have.
pub const MOST: u64 = 50_000_000;

/// Whether the empty prefix is legal, asked with a journal of at most so many entries: the values of a play or that there
/// is none, or the fault, and the entries that were made.
pub fn asked_line(alloc: Global, game: &Game, limit: u64) -> Result<String, NoAnswer>
    requires some { 1 ≤ limit }
    requires few { limit ≤ 50000000 }
{
    let mut journal = Journal::new(alloc, limit);
    let mut out = String::new(alloc);
    ask_first(alloc, game, &mut journal, &mut out)?;
    let entries = entry_words(alloc, journal.entries())?;
    Ok(format!(in alloc; "{out} by{entries}")?)
}

/// Asks whether the empty prefix is legal: writes the answer, and tells whether it is.
pub fn ask_first(
    alloc: Global,
    game: &Game,
    journal: &mut Journal,
    out: &mut String,
) -> Result<bool, NoAnswer>
    requires { journal.old.entries ≡ [] }
    ensures lawful { OnOk result (IsLawful game.now journal.new.entries) }
    ensures legal { IfOk result (λ legal. IsTrue legal → IsLegal game.now []) }
{
    let bx = whole_box(alloc, game)?;
    let answer = answer_first(alloc, game, &bx, journal);
    out.push_str(answer_words(alloc, &answer)?.as_str())?;
    Ok(is_completed(&answer))
}

fn answer_first(
    alloc: Global,
    game: &Game,
    bx: &Bx,
    journal: &mut Journal,
) -> Result<Legality, LegalFault>
    requires first { journal.old.entries ≡ [] }
    requires is_box { IsBox game.now.vars bx.now }
    requires whole { bx.now ≡ whole_box_of game.now.vars }
    ensures lawful { IsLawful game.now journal.new.entries }
    ensures legal { IsOkAnd result IsCompletion → IsLegal game.now [] }
{
    let named = NamedPrefix {
        parent: 0,
        value: None,
    };
    legal(alloc, game, bx, named, journal)
}

/// Whether a completion is answered.
pub fn is_completed(answer: &Result<Legality, LegalFault>) -> bool
    ensures { IsTrue result → IsOkAnd answer.now IsCompletion }
{
    match answer {
        Ok(Legality::Completion(_)) => true,
        Ok(Legality::Illegal(_)) => false,
        Err(_) => false,
    }
}

/// What was answered: a completion, that there is none, or that the journal is spent.
pub fn answer_words(
    alloc: Global,
    answer: &Result<Legality, LegalFault>,
) -> Result<String, NoAnswer> {
    match answer {
        Ok(Legality::Completion(values)) => {
            let values = number_words(alloc, values.as_slice())?;
            Ok(format!(in alloc; "completion{values}")?)
        }
        Ok(Legality::Illegal(_)) => Ok(String::from_str(alloc, "illegal")?),
        Err(LegalFault::Spent) => Ok(String::from_str(alloc, "spent")?),
        Err(LegalFault::Memory) => Err(NoAnswer::Memory),
    }
}
