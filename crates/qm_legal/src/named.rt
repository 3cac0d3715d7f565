ghost use Rattle.std.specs.Prelude.{◌≡◌, ◌+◌, ◌≤◌, IfOk, OnErr, OnOk, Err, length};
ghost use Rattle.qm_journal.specs.Positions.{IsParent, position_of};
ghost use Rattle.qm_journal.specs.Lawful.{IsLawful};
ghost use Rattle.qm_journal.specs.Questions.{IsNewQuestion, named_prefix};
ghost use Rattle.qm_journal.specs.declared.entry.JKind.TheVariants.{Query};
ghost use Rattle.qm_legal.specs.declared.fault.LegalFault.TheVariants as fault;
ghost use Rattle.qm_legal.specs.JournalSteps.{IsFull, number_after, query_of, step_of, with_entry};

use crate::fault::LegalFault;
use qm_game::{Game, Range};
use qm_journal::{JEntry, JKind, Journal};

/// What is asked about: the prefix of the game entry of the number `parent`, or the empty one for 0, with `value` behind
/// it; or the empty prefix, where there is no value and `parent` is 0.
#[derive(Clone, Copy, Debug, PartialEq, Eq)]
pub struct NamedPrefix {
    pub parent: u32,
    pub value: Option<i64>,
}

/// How many values the prefix of a game entry has; none for the number 0.
pub fn prefix_length(game: &Game, entries: &[JEntry], number: u32) -> usize
    requires lawful { IsLawful game.now entries.now }
    requires parent { IsParent Query entries.now number }
    ensures length { result ≡ length (position_of entries.now number).prefix }
    ensures few { result ≤ number }
{
    let mut count = 0;
    let mut at = number;
    while at > 0 {
        at = entries[at as usize - 1].parent;
        count += 1;
    }
    count
}

/// How many values the named prefix has.
pub fn depth_of(game: &Game, journal: &Journal, named: NamedPrefix) -> usize
    requires lawful { IsLawful game.now journal.now.entries }
    requires new { IsNewQuestion game.now journal.now.entries named.parent named.value }
    ensures { result ≡ length (named_prefix journal.now.entries named.parent named.value) }
{
    match named.value {
        None => 0,
        Some(_) => prefix_length(game, journal.entries(), named.parent) + 1,
    }
}

/// The query entry of the named prefix; none for the empty one.
pub fn query_of(named: NamedPrefix) -> Option<JEntry>
    ensures { result ≡ query_of named }
{
    let value = named.value?;
    Some(JEntry {
        kind: JKind::Query,
        parent: named.parent,
        value,
    })
}

/// The step entry of this value behind the entry of this number.
pub fn step_of(number: u32, run: Range) -> JEntry
    ensures { result ≡ step_of number run.low }
{
    JEntry {
        kind: JKind::Step,
        parent: number,
        value: run.low,
    }
}

/// Makes the entry, and tells its number; or makes none, where the search begins behind the empty prefix, and tells 0.
/// `Spent`, where the journal is full, or `Memory`: then the journal stays as it was.
pub fn enter(journal: &mut Journal, entry: Option<JEntry>) -> Result<u32, LegalFault>
    ensures number { IfOk result (λ number. number ≡ number_after entry journal.old) }
    ensures entered { OnOk result (journal.new ≡ with_entry entry journal.old) }
    ensures same { OnErr result (journal.new ≡ journal.old) }
    ensures spent { result ≡ Err fault.Spent → IsFull journal.new }
{
    match entry {
        None => Ok(0),
        Some(entry) => Ok(journal.enter(entry.kind, entry.parent, entry.value)?),
    }
}
