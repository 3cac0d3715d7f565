ghost use Rattle.std.specs.Prelude.{◌≡◌, ◌++◌, ◌∷◌, [], IfOk, IsTrue, OnOk};
ghost use Rattle.qm_model.specs.Legal.{IsLegal};
ghost use Rattle.qm_journal.specs.declared.entry.JKind.TheVariants as kind;
ghost use Rattle.qm_journal.specs.Lawful.{IsLawful, IsNext, IsOpen};

use crate::first_values::{begin_within, whole_vars};
use crate::prefixes::{is_game_parent, is_new, prefix_of, with_end};
use crate::set_boxes::box_of_prefix;
use qm_game::{Game, row_dead};
use qm_io::Memory;
use qm_journal::{JEntry, JKind, Journal, JournalFault};
use std::alloc::Global;

/// Makes the game entry of a legal prefix, whose value is behind that of this number or the empty one for 0, and tells its
/// number; makes none where it may not come next, or the journal is full.
pub fn enter_game(
    alloc: Global,
    game: &Game,
    parent: u32,
    value: i64,
    prefix: &[i64],
    journal: &mut Journal,
) -> Result<Option<u32>, Memory>
    requires lawful { IsLawful game.now journal.old.entries }
    requires legal { IsLegal game.now prefix.now }
    ensures { OnOk result (IsLawful game.now journal.new.entries) }
{
    let may = may_enter(alloc, game, parent, value, prefix, journal.entries())?;
    if !may {
        return Ok(None);
    }
    match journal.enter(JKind::Game, parent, value) {
        Ok(number) => Ok(Some(number)),
        Err(JournalFault::Spent) => Ok(None),
        Err(JournalFault::Memory) => Err(Memory),
    }
}

fn may_enter(
    alloc: Global,
    game: &Game,
    parent: u32,
    value: i64,
    prefix: &[i64],
    entries: &[JEntry],
) -> Result<bool, Memory>
    requires lawful { IsLawful game.now entries.now }
    requires legal { IsLegal game.now prefix.now }
    ensures { IfOk result (λ may. IsTrue may → IsNext game.now entries.now (record { kind = kind.Game; parent = parent; value = value })) }
{
    let entry = JEntry {
        kind: JKind::Game,
        parent,
        value,
    };
    if !is_game_parent(entries, parent) || !is_new(entries, entry) {
        return Ok(false);
    }
    let before = prefix_of(alloc, game, entries, parent)?;
    let longer = with_end(alloc, before.as_slice(), value)?;
    if !is_same(longer.as_slice(), prefix) {
        return Ok(false);
    }
    let opens = is_open(alloc, game, prefix)?;
    Ok(opens)
}

fn is_same(left: &[i64], right: &[i64]) -> bool
    ensures { IsTrue result → left.now ≡ right.now }
{
    match left.split_first() {
        Some((value, rest)) => match right.split_first() {
            Some((other, others)) => *value == *other && is_same(rest, others),
            None => false,
        },
        None => right.is_empty(),
    }
}

// Whether the legal prefix is one that game entries have.
fn is_open(alloc: Global, game: &Game, prefix: &[i64]) -> Result<bool, Memory>
    requires { IsLegal game.now prefix.now }
    ensures { IfOk result (λ answer. IsTrue answer → IsOpen game.now prefix.now) }
{
    let vars = whole_vars(game);
    if prefix.is_empty() || prefix.len() >= vars.len() || !begin_within(vars, prefix) {
        return Ok(false);
    }
    let bx = box_of_prefix(alloc, game, prefix)?;
    match row_dead(game, &bx) {
        Some(_) => Ok(false),
        None => Ok(true),
    }
}
