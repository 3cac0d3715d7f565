ghost use Rattle.std.specs.Prelude.{◌≡◌, ◌≤ℤ◌, ◌<ℤ◌, ◌-ℤ◌, int_le, pos};
ghost use Rattle.qm_model.specs.Boxes.{IsBox};
ghost use Rattle.qm_legal.specs.SearchSteps.{range_to};

use crate::copied::copied;
use qm_game::{Bx, Game, Range};
use qm_io::Memory;
use qm_prop::{Propagated, propagate};
use std::alloc::Global;

/// The box that propagation leaves, or the box itself where it finds a dead row. Nothing is promised of it, since it goes
/// through the rows of the existential player too: it tells where to begin, and decides nothing.
pub fn guide(alloc: Global, game: &Game, bx: &Bx) -> Result<Bx, Memory>
    requires { IsBox game.now.vars bx.now }
{
    match propagate(alloc, game, copied(alloc, bx)?)? {
        Propagated::Narrowed { bx, .. } => Ok(bx),
        Propagated::Dead { .. } => copied(alloc, bx),
    }
}

/// The values of the range to begin with: from the low end of what the guide leaves of it on, else all.
pub fn upper_values(guide: &[Range], at: usize, covered: Range) -> Range
    requires { covered.low ≤ℤ covered.high }
    ensures low { covered.low ≤ℤ result.low }
    ensures some { result.low ≤ℤ result.high }
    ensures high { result.high ≡ covered.high }
{
    match guide.get(at) {
        Some(left) if covered.low <= left.low && left.low <= covered.high => Range {
            low: left.low,
            high: covered.high,
        },
        _ => covered,
    }
}

/// Whether these upper values are all of the range.
pub fn are_all(covered: Range, upper: Range) -> bool
    ensures { result ≡ int_le upper.low covered.low }
{
    upper.low <= covered.low
}

/// The values of the range before these upper ones.
pub fn lower_values(covered: Range, upper: Range) -> Range
    requires { covered.low <ℤ upper.low }
    ensures { result ≡ range_to covered.low (upper.low -ℤ pos 1) }
{
    Range {
        low: covered.low,
        high: upper.low - 1,
    }
}
