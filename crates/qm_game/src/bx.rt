ghost use Rattle.std.specs.Prelude.{◌≡◌, ◌<◌, ◌≤◌, ◌≤ℤ◌, ◌↔◌, Any, IfOk, IsSomeAnd, IsTrue, false, length, max, slice_get, slice_set, true, unsigned_abs};
ghost use Rattle.std.specs.Option.{ForSome};
ghost use Rattle.qm_model.specs.declared.variable.Var.{Var};
ghost use Rattle.qm_model.specs.Boxes.{IsBox, IsEmptyRange, IsInside, whole_box_of};

use crate::{Game, Range};
use qm_io::{List, Memory};
use std::alloc::Global;

/// One range for each variable.
pub type Bx = List<Range>;

/// The variables' own bounds. `Memory`, where there is none for them.
pub fn whole_box(alloc: Global, game: &Game) -> Result<Bx, Memory>
    ensures bounds { IfOk result (λ bx. bx ≡ whole_box_of game.now.vars) }
    ensures is_box { IfOk result (IsBox game.now.vars) }
{
    let mut bx = List::new(alloc);
    for var in game.problem().vars.as_slice() {
        bx.push(Range {
            low: var.low,
            high: var.high,
        })?;
    }
    Ok(bx)
}

/// Puts a range inside the variable's range in its place; so a box of the game stays one.
pub fn narrow(bx: &mut Bx, var: u32, to: Range)
    requires var { var < length bx.old }
    requires inside { ForSome (slice_get bx.old var) (IsInside to) }
    ensures new { bx.new ≡ slice_set bx.old var to }
    ensures stays_box { (vars : List Var) → IsBox vars bx.old → IsBox vars bx.new }
{
    put(bx, var, to)
}

/// Whether the end is no farther from 0 than the farther end of the range.
fn is_near(end: i64, range: Range) -> bool
    ensures { IsTrue result ↔ unsigned_abs end ≤ max (unsigned_abs range.low) (unsigned_abs range.high) }
{
    end.unsigned_abs() <= range.low.unsigned_abs()
        || end.unsigned_abs() <= range.high.unsigned_abs()
}

fn ends_lie_between(inner: Range, outer: Range) -> bool
    ensures { IsTrue result ↔ (outer.low ≤ℤ inner.low) × (inner.high ≤ℤ outer.high) }
{
    outer.low <= inner.low && inner.high <= outer.high
}

/// Whether the range lies inside the other, and neither end is farther from 0 than the farther end of the other.
pub fn is_inside(inner: Range, outer: Range) -> bool
    ensures { IsTrue result ↔ IsInside inner outer }
{
    if !ends_lie_between(inner, outer) {
        return false;
    }
    is_near(inner.low, outer) && is_near(inner.high, outer)
}

/// Puts the range in the place of the variable's range where it lies inside that, and tells whether it does; else the
/// box stays. So a box of the game stays one.
pub fn try_narrow(bx: &mut Bx, var: u32, to: Range) -> bool
    ensures inside { IsTrue result ↔ IsSomeAnd (slice_get bx.old var) (IsInside to) }
    ensures done { result ≡ true → bx.new ≡ slice_set bx.old var to }
    ensures refused { result ≡ false → bx.new ≡ bx.old }
    ensures stays_box { (vars : List Var) → IsBox vars bx.old → IsBox vars bx.new }
{
    match bx.as_slice().get(var as usize) {
        Some(range) if is_inside(to, *range) => {
            narrow(bx, var, to);
            true
        }
        _ => false,
    }
}

/// Puts any range in the place of the variable's range.
pub fn put(bx: &mut Bx, var: u32, to: Range)
    requires { var < length bx.old }
    ensures { bx.new ≡ slice_set bx.old var to }
{
    bx.set(var as usize, to)
}

/// Whether some range has no value.
pub fn has_empty(bx: &Bx) -> bool
    ensures { IsTrue result ↔ Any IsEmptyRange bx.now }
{
    bx.as_slice().iter().any(|range| range.high < range.low)
}
