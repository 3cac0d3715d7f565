ghost use Rattle.std.specs.Prelude.{◌≡◌, ◌≢◌, ◌+◌, ◌^◌, ◌<◌, ◌≤◌, pos, unsigned_abs};
ghost use Rattle.qm_prop.specs.Narrower.{above_low, below_high, narrower, room_of, width_of};

use qm_game::Range;

/// The slack over a coefficient's magnitude, rounded down for a whole variable, else up.
fn room(whole: bool, slack: u128, size: u128) -> u128
    requires some { 0 < size }
    requires fits { slack + size < 2 ^ 128 }
    ensures { result ≡ room_of whole slack size }
{
    if whole {
        slack / size
    } else {
        (slack + (size - 1)) / size
    }
}

/// How many steps apart the ends are.
fn width(range: Range) -> u128
    ensures { result ≡ width_of range }
{
    let gap = i128::from(range.high) - i128::from(range.low);
    if gap < 0 { 0 } else { gap.unsigned_abs() }
}

/// The range up to so many steps from its low end.
fn above_low(range: Range, steps: u128) -> Range
    requires { steps < width_of range }
    ensures { result ≡ above_low steps range }
{
    let high = i128::from(range.low) + steps as i128;
    Range {
        low: range.low,
        high: high as i64,
    }
}

/// The range up to so many steps from its high end.
fn below_high(range: Range, steps: u128) -> Range
    requires { steps < width_of range }
    ensures { result ≡ below_high steps range }
{
    let low = i128::from(range.high) - steps as i128;
    Range {
        low: low as i64,
        high: range.high,
    }
}

/// The range as far as a term of this coefficient narrows it in a row of this slack, where it does.
pub(crate) fn narrower(whole: bool, coef: i128, slack: u128, range: Range) -> Option<Range>
    requires some { coef ≢ pos 0 }
    requires fits { slack + unsigned_abs coef < 2 ^ 128 }
    ensures { result ≡ narrower whole coef slack range }
{
    let room = room(whole, slack, coef.unsigned_abs());
    if room >= width(range) {
        return None;
    }
    if coef > 0 {
        Some(above_low(range, room))
    } else {
        Some(below_high(range, room))
    }
}
