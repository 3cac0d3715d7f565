ghost use Rattle.std.specs.Prelude.{◌≡◌, ◌+ℤ◌, ◌&&◌, int_le, pos};
ghost use Rattle.std.specs.Ordering.{int_eq};
ghost use Rattle.qm_trees.specs.Ranges.{counts_right, follows_on, same};
ghost use Rattle.qm_trees.specs.RefuteJudgement.{counts_over};

use crate::ends::is_empty;
use qm_model::{Range, Var, is_for_all};

/// Whether so many ranges may cover the range: none exactly where it has no value.
pub(crate) fn count_is_right(covered: Range, count: u32) -> bool
    ensures { result ≡ counts_right covered count }
{
    (count == 0) == is_empty(covered)
}

/// The same in a refutation, where a universal variable's range is covered by one alone.
pub(crate) fn over_count_is_right(var: &Var, covered: Range, count: u32) -> bool
    ensures { result ≡ counts_over var.now covered count }
{
    count_is_right(covered, count) && (!is_for_all(var) || count == 1)
}

fn is_equal(a: i64, b: i64) -> bool
    ensures { result ≡ int_eq a b }
{
    a == b
}

/// Whether the range begins at `next` and has a value.
fn begins(next: i128, range: Range) -> bool
    ensures { result ≡ (int_eq range.low next && int_le range.low range.high) }
{
    i128::from(range.low) == next && range.low <= range.high
}

/// Whether the range doesn't go past the high end, and reaches it exactly if it is the last.
fn ends(high: i64, is_last: bool, range: Range) -> bool
    ensures { result ≡ (int_le range.high high && same is_last (int_eq range.high high)) }
{
    range.high <= high && is_last == is_equal(range.high, high)
}

/// Whether the range begins at `next`, has a value, doesn't go past the high end, and reaches it exactly if it is the
/// last.
pub(crate) fn follows_on(next: i128, high: i64, is_last: bool, range: Range) -> bool
    ensures { result ≡ follows_on next high is_last range }
{
    begins(next, range) && ends(high, is_last, range)
}

/// Where the next range is to begin. It may be past 64 bits.
pub(crate) fn behind(range: Range) -> i128
    ensures { result ≡ range.high +ℤ pos 1 }
{
    i128::from(range.high) + 1
}
