ghost use Rattle.std.specs.Prelude.{◌≡◌, ◌<◌, ◌+ℤ◌, pos, length};
ghost use Rattle.qm_model.specs.Ranges.{is_in, range_at, single};

/// The whole numbers from `low` to `high`; there are none where `low` is the greater.
#[derive(Clone, Copy, Debug, PartialEq, Eq)]
pub struct Range {
    pub low: i64,
    pub high: i64,
}

/// The range of this value alone.
pub fn single(value: i64) -> Range
    ensures { result ≡ single value }
{
    Range {
        low: value,
        high: value,
    }
}

/// The range of the variable at this place.
pub fn range_in(bx: &[Range], at: usize) -> Range
    requires { at < length bx.now }
    ensures { result ≡ range_at bx.now at }
{
    bx[at]
}

/// Whether the range has the value.
pub fn contains(range: Range, value: i64) -> bool
    ensures { result ≡ is_in range value }
{
    range.low <= value && value <= range.high
}

/// The low end.
pub fn start(range: Range) -> i128
    ensures { result ≡ range.low }
{
    i128::from(range.low)
}

/// The number after the range.
pub fn after(range: Range) -> i128
    ensures { result ≡ range.high +ℤ pos 1 }
{
    i128::from(range.high) + 1
}
