ghost use Rattle.std.specs.Prelude.{◌≡◌, ◌<◌, ◌≤ℤ◌, ◌<ℤ◌, ◌-ℤ◌, int_le, length, pos, slice_set};
ghost use Rattle.qm_math.specs.Ranges.{IsBetween};
ghost use Rattle.qm_model.specs.Boxes.{IsBox, IsDead};
ghost use Rattle.qm_model.specs.Sound.{IsRowOver};
ghost use Rattle.qm_model.specs.Ranges.{range_at, single};
ghost use Rattle.qm_legal.specs.SearchSteps.{IsDeadRun, range_to};

use crate::dead::is_dead_with;
use qm_game::{Bx, Place, Range, Row};

/// Whether the range has values from `next` on.
pub fn is_left(next: i128, covered: Range) -> bool
    ensures { result ≡ int_le next covered.high }
{
    next <= i128::from(covered.high)
}

/// The range of this value of the range alone.
pub fn single_at(next: i128, covered: Range) -> Range
    requires { IsBetween covered.low covered.high next }
    ensures { result ≡ single next }
{
    let value = next as i64;
    Range {
        low: value,
        high: value,
    }
}

/// A number in the upper half of those behind `low`.
fn middle(low: i64, high: i64) -> i64
    requires { low <ℤ high }
    ensures above { low <ℤ result }
    ensures within { result ≤ℤ high }
{
    let half = (i128::from(high) - i128::from(low) + 1) / 2;
    (i128::from(low) + half) as i64
}

/// The range up to a value in the upper half of the bracket.
fn halved(run: Range, bracket: Range) -> Range
    requires { bracket.low <ℤ bracket.high }
    ensures low { result.low ≡ run.low }
    ensures above { bracket.low <ℤ result.high }
    ensures within { result.high ≤ℤ bracket.high }
{
    Range {
        low: run.low,
        high: middle(bracket.low, bracket.high),
    }
}

/// The bracket from the high end of the tried range on.
fn upper(bracket: Range, tried: Range) -> Range
    ensures { result ≡ range_to tried.high bracket.high }
{
    Range {
        low: tried.high,
        high: bracket.high,
    }
}

/// The bracket before the high end of the tried range.
fn lower(bracket: Range, tried: Range) -> Range
    requires { bracket.low <ℤ tried.high }
    ensures { result ≡ range_to bracket.low (tried.high -ℤ pos 1) }
{
    Range {
        low: bracket.low,
        high: tried.high - 1,
    }
}

/// The longest run of values from the low end of this one on, at most up to the high end of `within`, that the row is
/// dead over, where it is dead over this one: its high end lies in a bracket that is halved. The box stays as it was.
pub fn dead_run(here: Place<'_>, row: &Row, bx: &mut Bx, run: Range, within: Range) -> Range
    requires row { IsRowOver here.game.now.vars row.now }
    requires bx { IsBox here.game.now.vars bx.old }
    requires next { 0 < length here.rest.now }
    requires low { (range_at bx.old here.depth).low ≤ℤ run.low }
    requires some { run.low ≤ℤ run.high }
    requires before { run.high ≤ℤ within.high }
    requires within { within.high ≤ℤ (range_at bx.old here.depth).high }
    requires dead { IsDead (slice_set bx.old here.depth run) row.now }
    ensures run { IsDeadRun row.now bx.old here.entry.depth run within.high result }
    ensures same { bx.new ≡ bx.old }
{
    let mut bracket = bracket_of(run, within);
    while bracket.low < bracket.high {
        let tried = halved(run, bracket);
        if is_dead_with(here, row, bx, tried) {
            bracket = upper(bracket, tried);
        } else {
            bracket = lower(bracket, tried);
        }
    }
    run_to(run, bracket)
}

/// The bracket from the high end of the run to that of the values within which it may go on.
fn bracket_of(run: Range, within: Range) -> Range
    ensures { result ≡ range_to run.high within.high }
{
    Range {
        low: run.high,
        high: within.high,
    }
}

/// The range from the low end of the run to that of the bracket.
fn run_to(run: Range, bracket: Range) -> Range
    ensures { result ≡ range_to run.low bracket.low }
{
    Range {
        low: run.low,
        high: bracket.low,
    }
}
