ghost use Rattle.std.specs.Prelude.{◌≡◌, ◌≤ℤ◌, ◌-ℤ◌, ◌++◌, Err, IfOk, drop, length, pos};
ghost use Rattle.qm_model.specs.declared.variable.Player.TheVariants.{All as Universal};
ghost use Rattle.qm_model.specs.Ranges.{range_at};
ghost use Rattle.qm_legal.specs.declared.fault.LegalFault.TheVariants as fault;
ghost use Rattle.qm_legal.specs.SearchSteps.{IsFound, IsFoundPart, IsOneOf, SetsNext, range_to};
ghost use Rattle.qm_legal.specs.JournalSteps.{AreFoundParts, AreShownParts, AreStepsWithin, AreUntried, Grown, IsAdded, IsAliveValue, IsEntered, IsFull, IsPartOf, IsSearched};

use crate::dead::dead_row_with;
use crate::fault::LegalFault;
use crate::guide::{are_all, lower_values, upper_values};
use crate::named::{enter, step_of};
use crate::part::{dead_part, part_of, split};
use crate::run::{is_left, single_at};
use qm_game::{Bx, Place, Range};
use qm_io::Memory;
use qm_journal::{JEntry, Journal};
use qm_model::{after, is_for_all, start};
use qm_trees::{Empty, EmptyPart};
use sqlite_items::Items;
use std::alloc::Global;

/// The tree that shows that no play is left from here on, and the box as it was; or no tree, and the box with a play's
/// values. The entry is made where the values of a variable are gone through, and steps below it for those that are
/// looked into; without an entry the search begins behind the empty prefix. The guide tells which values come first.
#[cycle(search)]
pub fn search(
    alloc: Global,
    here: Place<'_>,
    entry: Option<JEntry>,
    guide: &[Range],
    bx: &mut Bx,
    journal: &mut Journal,
) -> Result<Option<Empty>, LegalFault>
    requires { IsSearched here.game.now here.depth bx.old journal.old entry }
    ensures found { IfOk result (IsFound here.entry.game.now here.entry.rest.now here.entry.depth bx.old bx.new) }
    ensures grown { Grown here.entry.game.now (IsAdded entry journal.old.entries) journal.old journal.new }
    ensures spent { result ≡ Err fault.Spent → IsFull journal.new }
{
    match here.rest.split_first() {
        None => Ok(None),
        Some((var, _later)) => {
            if is_for_all(var) {
                search_values(alloc, here, entry, guide, bx, journal)
            } else {
                search(alloc, here.behind(), entry, guide, bx, journal)
            }
        }
    }
}

/// The same by the values of the next variable: from the guide's low end on, and then those below it.
#[cycle(search)]
fn search_values(
    alloc: Global,
    here: Place<'_>,
    entry: Option<JEntry>,
    guide: &[Range],
    bx: &mut Bx,
    journal: &mut Journal,
) -> Result<Option<Empty>, LegalFault>
    requires searched { IsSearched here.game.now here.depth bx.old journal.old entry }
    requires player { SetsNext Universal here.rest.now }
    ensures found { IfOk result (IsFound here.entry.game.now here.entry.rest.now here.entry.depth bx.old bx.new) }
    ensures grown { Grown here.entry.game.now (IsAdded entry journal.old.entries) journal.old journal.new }
    ensures spent { result ≡ Err fault.Spent → IsFull journal.new }
{
    let number = enter(journal, entry)?;
    let covered = here.range(bx);
    let upper = upper_values(guide, here.depth, covered);
    match search_range(alloc, here, number, guide, bx, journal, upper)? {
        None => Ok(None),
        Some(above) => search_others(alloc, here, number, guide, bx, journal, upper, above),
    }
}

/// The same by the values below the first that was tried, where these parts show it of that and those above.
#[cycle(search)]
fn search_others(
    alloc: Global,
    here: Place<'_>,
    number: u32,
    guide: &[Range],
    bx: &mut Bx,
    journal: &mut Journal,
    upper: Range,
    above: Items<EmptyPart>,
) -> Result<Option<Empty>, LegalFault>
    requires entered { IsEntered here.game.now here.depth bx.old journal.old number }
    requires player { SetsNext Universal here.rest.now }
    requires low { (range_at bx.old here.depth).low ≤ℤ upper.low }
    requires some { upper.low ≤ℤ upper.high }
    requires high { upper.high ≡ (range_at bx.old here.depth).high }
    requires untried { AreUntried number (range_to (range_at bx.old here.depth).low (upper.low -ℤ pos 1)) journal.old.entries }
    requires above { AreShownParts here.game.now (drop 1 here.rest.now) here.depth bx.old upper above }
    ensures found { IfOk result (IsFound here.entry.game.now here.entry.rest.now here.entry.depth bx.old bx.new) }
    ensures grown { Grown here.entry.game.now (AreStepsWithin number (range_at bx.old here.entry.depth) (length journal.old.entries)) journal.old journal.new }
    ensures spent { result ≡ Err fault.Spent → IsFull journal.new }
{
    let covered = here.range(bx);
    if are_all(covered, upper) {
        return Ok(Some(split(here, above)));
    }
    match search_range(
        alloc,
        here,
        number,
        guide,
        bx,
        journal,
        lower_values(covered, upper),
    )? {
        None => Ok(None),
        Some(below) => {
            let parts = joined(below, above)?;
            Ok(Some(split(here, parts)))
        }
    }
}

/// The parts of these values of the next variable, from the low end on; or no parts, and the box with a play's values.
#[cycle(search)]
fn search_range(
    alloc: Global,
    here: Place<'_>,
    number: u32,
    guide: &[Range],
    bx: &mut Bx,
    journal: &mut Journal,
    within: Range,
) -> Result<Option<Items<EmptyPart>>, LegalFault>
    requires entered { IsEntered here.game.now here.depth bx.old journal.old number }
    requires player { SetsNext Universal here.rest.now }
    requires some { within.low ≤ℤ within.high }
    requires within { IsPartOf (range_at bx.old here.depth) within }
    requires untried { AreUntried number within journal.old.entries }
    ensures found { IfOk result (AreFoundParts here.entry.game.now (drop 1 here.entry.rest.now) here.entry.depth bx.old bx.new within) }
    ensures grown { Grown here.entry.game.now (AreStepsWithin number within (length journal.old.entries)) journal.old journal.new }
    ensures spent { result ≡ Err fault.Spent → IsFull journal.new }
{
    let mut parts = Items::new(alloc);
    let mut next = start(within);
    while is_left(next, within) {
        let run = single_at(next, within);
        match search_value(alloc, here, number, guide, bx, journal, run, within)? {
            None => return Ok(None),
            Some(part) => {
                next = after(part.range);
                parts.push(part).map_err(|_| Memory)?;
            }
        }
    }
    Ok(Some(parts))
}

/// The part of this value alone, or of a run of values from it on, at most up to the high end of the others; or no part, and the box with a
/// play's values.
#[cycle(search)]
fn search_value(
    alloc: Global,
    here: Place<'_>,
    number: u32,
    guide: &[Range],
    bx: &mut Bx,
    journal: &mut Journal,
    run: Range,
    within: Range,
) -> Result<Option<EmptyPart>, LegalFault>
    requires entered { IsEntered here.game.now here.depth bx.old journal.old number }
    requires player { SetsNext Universal here.rest.now }
    requires run { IsOneOf (range_at bx.old here.depth) run }
    requires some { run.high ≤ℤ within.high }
    requires within { within.high ≤ℤ (range_at bx.old here.depth).high }
    requires untried { AreUntried number run journal.old.entries }
    ensures found { IfOk result (IsFoundPart here.entry.game.now (drop 1 here.entry.rest.now) here.entry.depth bx.old bx.new run.low within.high) }
    ensures grown { Grown here.entry.game.now (AreStepsWithin number run (length journal.old.entries)) journal.old journal.new }
    ensures spent { result ≡ Err fault.Spent → IsFull journal.new }
{
    match dead_row_with(here, bx, run) {
        Some(row) => {
            let part = dead_part(alloc, here, row, bx, run, within)?;
            Ok(Some(part))
        }
        None => search_below(alloc, here, number, guide, bx, journal, run, within),
    }
}

/// The same of a value over which no uncertainty row is dead.
#[cycle(search)]
fn search_below(
    alloc: Global,
    here: Place<'_>,
    number: u32,
    guide: &[Range],
    bx: &mut Bx,
    journal: &mut Journal,
    run: Range,
    within: Range,
) -> Result<Option<EmptyPart>, LegalFault>
    requires entered { IsEntered here.game.now here.depth bx.old journal.old number }
    requires player { SetsNext Universal here.rest.now }
    requires value { IsAliveValue here.game.now here.depth bx.old run }
    requires some { run.high ≤ℤ within.high }
    requires untried { AreUntried number run journal.old.entries }
    ensures found { IfOk result (IsFoundPart here.entry.game.now (drop 1 here.entry.rest.now) here.entry.depth bx.old bx.new run.low within.high) }
    ensures grown { Grown here.entry.game.now (AreStepsWithin number run (length journal.old.entries)) journal.old journal.new }
    ensures spent { result ≡ Err fault.Spent → IsFull journal.new }
{
    // that the problem is in order
    let _problem = here.game.problem();
    let before = here.range(bx);
    here.put(bx, run);
    let step = step_of(number, run);
    match search(alloc, here.behind(), Some(step), guide, bx, journal)? {
        None => Ok(None),
        Some(below) => {
            here.put(bx, before);
            Ok(Some(part_of(run, below)))
        }
    }
}

/// The parts of a range, where these are the parts of its lower and of its upper values.
fn joined(below: Items<EmptyPart>, above: Items<EmptyPart>) -> Result<Items<EmptyPart>, Memory>
    ensures { IfOk result (λ parts. parts ≡ below ++ above) }
{
    let mut parts = below;
    parts.append(above).map_err(|_| Memory)?;
    Ok(parts)
}
