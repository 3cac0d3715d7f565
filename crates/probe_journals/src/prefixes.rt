ghost use Rattle.std.specs.Prelude.{◌≡◌, ◌∷◌, ◌++◌, [], All, IfOk, IsTrue, OnOk};
ghost use Rattle.qm_journal.specs.declared.entry.JKind.TheVariants as kind;
ghost use Rattle.qm_journal.specs.Lawful.{IsLawful};
ghost use Rattle.qm_journal.specs.Positions.{IsParent, position_of};

use qm_game::Game;
use qm_io::{List, Memory};
use qm_journal::{JEntry, JKind};
use std::alloc::Global;

/// Whether the number is 0 or that of a game entry.
pub fn is_game_parent(entries: &[JEntry], number: u32) -> bool
    ensures { IsTrue result → IsParent kind.Game entries.now number }
{
    if number == 0 {
        return true;
    }
    match entries.get(number as usize - 1) {
        Some(entry) => entry.kind == JKind::Game,
        None => false,
    }
}

/// Whether the entry is none of these.
pub fn is_new(entries: &[JEntry], entry: JEntry) -> bool
    ensures { IsTrue result → All (λ earlier. earlier ≡ entry → ⊥) entries.now }
{
    for earlier in entries {
        if *earlier == entry {
            return false;
        }
    }
    true
}

/// The prefix that the game entry of this number stands for, or the empty one for 0.
pub fn prefix_of(
    alloc: Global,
    game: &Game,
    entries: &[JEntry],
    number: u32,
) -> Result<List<i64>, Memory>
    requires lawful { IsLawful game.now entries.now }
    requires parent { IsParent kind.Game entries.now number }
    ensures { IfOk result (λ prefix. prefix ≡ (position_of entries.now number).prefix) }
{
    let mut prefix = List::new(alloc);
    push_prefix(&mut prefix, game, entries, number)?;
    Ok(prefix)
}

fn push_prefix(
    prefix: &mut List<i64>,
    game: &Game,
    entries: &[JEntry],
    number: u32,
) -> Result<(), Memory>
    requires lawful { IsLawful game.now entries.now }
    requires parent { IsParent kind.Game entries.now number }
    ensures { OnOk result (prefix.new ≡ prefix.old ++ (position_of entries.now number).prefix) }
{
    if number == 0 {
        return Ok(());
    }
    let entry = entries[number as usize - 1];
    push_prefix(prefix, game, entries, entry.parent)?;
    push_value(prefix, entry)?;
    Ok(())
}

fn push_value(prefix: &mut List<i64>, entry: JEntry) -> Result<(), Memory>
    ensures { OnOk result (prefix.new ≡ prefix.old ++ entry.value ∷ []) }
{
    prefix.push(entry.value)
}

/// The values with one more behind them.
pub fn with_end(alloc: Global, values: &[i64], value: i64) -> Result<List<i64>, Memory>
    ensures { IfOk result (λ longer. longer ≡ values.now ++ value ∷ []) }
{
    let mut longer = List::new(alloc);
    longer.append(values)?;
    longer.push(value)?;
    Ok(longer)
}
