ghost use Rattle.qm_journal.specs.Lawful.{IsLawful};
ghost use Rattle.qm_model.specs.Legal.{IsLegal};
ghost use Rattle.std.specs.Prelude.{[], IsTrue, OnOk};

use crate::alive::is_alive_play;
use crate::asked::{MOST, ask_first};
use crate::first_values::{begin_within, is_restricted, is_universal_turn, whole_vars};
use crate::plays::entered;
use crate::prefixes::is_new;
use crate::stands::Stand;
use probe_words::NoAnswer;
use qm_game::Game;
use qm_io::List;
use qm_journal::{JEntry, JKind, Journal};
use std::alloc::Global;

/// The number of the first entry that may not come next behind those before it; none where the entries are lawful. Which
/// prefixes are legal is asked with a journal beside, which has the same game entries.
pub fn first_unlawful(
    alloc: Global,
    game: &Game,
    entries: &[JEntry],
) -> Result<Option<usize>, NoAnswer> {
    let mut journal = Journal::new(alloc, MOST);
    let mut words = String::new(alloc);
    let root = ask_first(alloc, game, &mut journal, &mut words)?;
    let mut known = List::new(alloc);
    known.push(Stand::start(alloc))?;
    for (at, entry) in entries.iter().enumerate() {
        if !is_parent(entry.kind, &entries[..at], entry.parent) || !is_new(&entries[..at], *entry) {
            return Ok(Some(at + 1));
        }
        match next(alloc, game, root, known.as_slice(), *entry, &mut journal)? {
            Some(stand) => known.push(stand)?,
            None => return Ok(Some(at + 1)),
        }
    }
    Ok(None)
}

// What the entry stands for behind those whose positions are known, where it appends what it may.
fn next(
    alloc: Global,
    game: &Game,
    root: bool,
    known: &[Stand],
    entry: JEntry,
    journal: &mut Journal,
) -> Result<Option<Stand>, NoAnswer>
    requires lawful { IsLawful game.now journal.old.entries }
    requires root { IsTrue root → IsLegal game.now [] }
    ensures { OnOk result (IsLawful game.now journal.new.entries) }
{
    let Some(parent) = known.get(entry.parent as usize) else {
        return Ok(None);
    };
    match entry.kind {
        JKind::Game => next_game(alloc, game, root, parent, entry.value, journal),
        JKind::Query => next_query(alloc, game, parent, entry.value),
        JKind::Step => next_step(alloc, game, parent, entry.value),
    }
}

fn next_game(
    alloc: Global,
    game: &Game,
    root: bool,
    parent: &Stand,
    value: i64,
    journal: &mut Journal,
) -> Result<Option<Stand>, NoAnswer>
    requires lawful { IsLawful game.now journal.old.entries }
    requires root { IsTrue root → IsLegal game.now [] }
    ensures { OnOk result (IsLawful game.now journal.new.entries) }
{
    let mut words = String::new(alloc);
    match entered(
        alloc,
        game,
        root,
        parent.number(),
        value,
        journal,
        &mut words,
    )? {
        Some(number) => Ok(Some(parent.with_value(alloc, number, value)?)),
        None if journal.entries().len() as u64 == MOST => Err(NoAnswer::Memory),
        None => Ok(None),
    }
}

fn next_query(
    alloc: Global,
    game: &Game,
    parent: &Stand,
    value: i64,
) -> Result<Option<Stand>, NoAnswer> {
    let stand = parent.with_value(alloc, 0, value)?;
    let vars = whole_vars(game);
    if is_restricted(game)
        && is_universal_turn(vars, parent.prefix().len())
        && begin_within(vars, stand.prefix())
        && is_alive_play(alloc, game, &stand)?
    {
        Ok(Some(stand))
    } else {
        Ok(None)
    }
}

fn next_step(
    alloc: Global,
    game: &Game,
    parent: &Stand,
    value: i64,
) -> Result<Option<Stand>, NoAnswer> {
    let stand = parent.with_step(alloc, value)?;
    if is_restricted(game) && is_alive_play(alloc, game, &stand)? {
        Ok(Some(stand))
    } else {
        Ok(None)
    }
}

// Whether an entry of this kind may have this parent.
fn is_parent(kind: JKind, before: &[JEntry], parent: u32) -> bool {
    if parent == 0 {
        return true;
    }
    match before.get(parent as usize - 1) {
        Some(entry) => (kind == JKind::Step) != (entry.kind == JKind::Game),
        None => false,
    }
}
