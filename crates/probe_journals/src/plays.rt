ghost use Rattle.std.specs.Prelude.{◌≤◌, [], IfSome, IsTrue, OnOk};
ghost use Rattle.qm_model.specs.Legal.{IsLegal};
ghost use Rattle.qm_journal.specs.Lawful.{IsLawful};

use crate::asked::ask_first;
use crate::entering::enter_game;
use crate::entries::entry_words;
use crate::first_values::whole_vars;
use crate::questions::legal_behind;
use probe_words::NoAnswer;
use qm_game::{Game, Var};
use qm_io::List;
use qm_journal::Journal;
use qm_model::is_for_all;
use std::alloc::Global;

/// Whether the empty prefix is legal and then each value of the universal player behind a legal prefix, asked with one
/// journal of at most so many entries: each answer behind the number and the value of what was asked, and the entries.
/// An existential variable has the first value with which the prefix may be a game entry.
pub fn plays_line(alloc: Global, game: &Game, limit: u64) -> Result<String, NoAnswer>
    requires some { 1 ≤ limit }
    requires few { limit ≤ 50000000 }
{
    let mut journal = Journal::new(alloc, limit);
    let mut out = String::new(alloc);
    let root = ask_first(alloc, game, &mut journal, &mut out)?;
    visit(
        alloc,
        game,
        whole_vars(game),
        root,
        0,
        &mut journal,
        &mut out,
    )?;
    let entries = entry_words(alloc, journal.entries())?;
    Ok(format!(in alloc; "{out} by{entries}")?)
}

// What is asked behind the game entry of this number, or behind the empty prefix for 0, where these variables are unset.
#[cycle(visits)]
fn visit(
    alloc: Global,
    game: &Game,
    rest: &[Var],
    root: bool,
    parent: u32,
    journal: &mut Journal,
    out: &mut String,
) -> Result<(), NoAnswer>
    requires lawful { IsLawful game.now journal.old.entries }
    requires root { IsTrue root → IsLegal game.now [] }
    ensures { OnOk result (IsLawful game.now journal.new.entries) }
{
    match rest.split_first() {
        Some((var, later)) => visit_values(alloc, game, var, later, root, parent, journal, out),
        None => Ok(()),
    }
}

// Behind each value of the universal player, or the first existential one with which there is a game entry.
#[cycle(visits)]
fn visit_values(
    alloc: Global,
    game: &Game,
    var: &Var,
    later: &[Var],
    root: bool,
    parent: u32,
    journal: &mut Journal,
    out: &mut String,
) -> Result<(), NoAnswer>
    requires lawful { IsLawful game.now journal.old.entries }
    requires root { IsTrue root → IsLegal game.now [] }
    ensures { OnOk result (IsLawful game.now journal.new.entries) }
{
    for value in var.low..=var.high {
        if visit_value(alloc, game, later, root, parent, value, journal, out)? && !is_for_all(var) {
            return Ok(());
        }
    }
    Ok(())
}

// Behind this value, where it may be that of a game entry; whether it may.
#[cycle(visits)]
fn visit_value(
    alloc: Global,
    game: &Game,
    later: &[Var],
    root: bool,
    parent: u32,
    value: i64,
    journal: &mut Journal,
    out: &mut String,
) -> Result<bool, NoAnswer>
    requires lawful { IsLawful game.now journal.old.entries }
    requires root { IsTrue root → IsLegal game.now [] }
    ensures { OnOk result (IsLawful game.now journal.new.entries) }
{
    match entered(alloc, game, root, parent, value, journal, out)? {
        Some(number) => {
            visit(alloc, game, later, root, number, journal, out)?;
            Ok(true)
        }
        None => Ok(false),
    }
}

/// The number of the game entry of this value, which is made where it is legal and may come next.
pub fn entered(
    alloc: Global,
    game: &Game,
    root: bool,
    parent: u32,
    value: i64,
    journal: &mut Journal,
    out: &mut String,
) -> Result<Option<u32>, NoAnswer>
    requires lawful { IsLawful game.now journal.old.entries }
    requires root { IsTrue root → IsLegal game.now [] }
    ensures { OnOk result (IsLawful game.now journal.new.entries) }
{
    match legal_behind(alloc, game, root, parent, value, journal, out)? {
        Some(prefix) => Ok(enter_game(alloc, game, parent, value, prefix.as_slice(), journal)?),
        None => Ok(None),
    }
}
