ghost use Rattle.std.specs.Prelude.{◌≡◌, ◌<◌, ◌≤ℤ◌, IfOk, IsSomeAnd, drop, length, slice_get, slice_set};
ghost use Rattle.qm_model.specs.Boxes.{IsBox, IsDead};
ghost use Rattle.qm_model.specs.Ranges.{range_at};
ghost use Rattle.qm_trees.specs.declared.empty.Empty.{Split};
ghost use Rattle.qm_trees.specs.EmptyJudgement.{below_of, range_of};
ghost use Rattle.qm_legal.specs.SearchSteps.{IsDeadRun, IsOneOf, IsPart};

use crate::run::dead_run;
use crate::shown::closed_by;
use qm_game::{Bx, Place, Range};
use qm_io::Memory;
use qm_trees::{Empty, EmptyPart};
use sqlite_items::Items;
use std::alloc::Global;

/// The number of the next variable.
fn number_of(here: Place<'_>) -> u32
    requires { 0 < length here.rest.now }
    ensures { result ≡ here.entry.depth }
{
    // that there are few variables
    let _problem = here.game.problem();
    here.depth as u32
}

/// The tree of these parts of the next variable.
pub fn split(here: Place<'_>, parts: Items<EmptyPart>) -> Empty
    requires { 0 < length here.rest.now }
    ensures { result ≡ Split here.entry.depth parts }
{
    Empty::Split {
        var: number_of(here),
        parts,
    }
}

/// The longest run of values from the low end of this one on, at most up to the high end of `within`, that the uncertainty row of this
/// number is dead over, where it is dead over this one. The box stays as it was.
pub fn dead_range(here: Place<'_>, number: u32, bx: &mut Bx, run: Range, within: Range) -> Range
    requires bx { IsBox here.game.now.vars bx.old }
    requires some { 0 < length here.rest.now }
    requires run { IsOneOf (range_at bx.old here.depth) run }
    requires before { run.high ≤ℤ within.high }
    requires within { within.high ≤ℤ (range_at bx.old here.depth).high }
    requires dead { IsSomeAnd (slice_get here.game.now.urows number) (IsDead (slice_set bx.old here.depth run)) }
    ensures run { IsSomeAnd (slice_get here.entry.game.now.urows number) (λ row. IsDeadRun row bx.old here.entry.depth run within.high result) }
    ensures some { run.high ≤ℤ result.high }
    ensures high { result.high ≤ℤ within.high }
    ensures same { bx.new ≡ bx.old }
{
    let row = &here.game.problem().urows.as_slice()[number as usize];
    dead_run(here, row, bx, run, within)
}

/// The part of this range.
pub fn part_of(range: Range, below: Empty) -> EmptyPart
    ensures range { range_of result ≡ range }
    ensures below { below_of result ≡ below }
{
    EmptyPart { range, below }
}

/// The part of the longest run of values, at most up to the high end of `within`, over which the uncertainty row of this number is dead,
/// where it is dead over the first. The box stays as it was.
pub fn dead_part(
    alloc: Global,
    here: Place<'_>,
    number: u32,
    bx: &mut Bx,
    run: Range,
    within: Range,
) -> Result<EmptyPart, Memory>
    requires bx { IsBox here.game.now.vars bx.old }
    requires some { 0 < length here.rest.now }
    requires run { IsOneOf (range_at bx.old here.depth) run }
    requires before { run.high ≤ℤ within.high }
    requires within { within.high ≤ℤ (range_at bx.old here.depth).high }
    requires dead { IsSomeAnd (slice_get here.game.now.urows number) (IsDead (slice_set bx.old here.depth run)) }
    ensures part { IfOk result (IsPart here.entry.game.now (drop 1 here.entry.rest.now) here.entry.depth bx.old run.low within.high) }
    ensures same { bx.new ≡ bx.old }
{
    // that the problem is in order
    let _problem = here.game.problem();
    let range = dead_range(here, number, bx, run, within);
    let below = closed_by(alloc, number)?;
    Ok(part_of(range, below))
}
