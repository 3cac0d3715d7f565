ghost use Rattle.std.specs.Prelude.{◌≡◌, ◌+◌, ◌<◌, ◌&&◌, int_le, drop, length};
ghost use Rattle.std.specs.Ordering.{int_eq};
ghost use Rattle.qm_trees.specs.Ranges.{counts_right, follows_on, is_last_before, same};

use qm_model::Range;

/// Whether there are no parts exactly where the covered range is empty.
pub fn count_is_right(covered: Range, count: usize) -> bool
    ensures { result ≡ counts_right covered count }
{
    (count == 0) == (covered.high < covered.low)
}

/// Whether no part follows the one at this place.
pub fn is_last<T>(parts: &[T], at: usize) -> bool
    requires { at < length parts.now }
    ensures { result ≡ is_last_before (drop (at + 1) parts.now) }
{
    at + 1 == parts.len()
}

fn is_equal(a: i64, b: i64) -> bool
    ensures { result ≡ int_eq a b }
{
    a == b
}

/// Whether the range begins at `next` and has a value.
fn begins_at(next: i128, range: Range) -> bool
    ensures { result ≡ (int_eq range.low next && int_le range.low range.high) }
{
    i128::from(range.low) == next && range.low <= range.high
}

/// Whether the range stays below the high end, and reaches it exactly if it is the last.
fn reaches_high_if_last(covered: Range, is_last: bool, range: Range) -> bool
    ensures { result ≡ (int_le range.high covered.high && same is_last (int_eq range.high covered.high)) }
{
    range.high <= covered.high && is_last == is_equal(range.high, covered.high)
}

/// Whether the range begins at `next`, has a value, and reaches the high end exactly if it is the last.
pub fn follows(next: i128, covered: Range, is_last: bool, range: Range) -> bool
    ensures { result ≡ follows_on next covered.high is_last range }
{
    begins_at(next, range) && reaches_high_if_last(covered, is_last, range)
}
