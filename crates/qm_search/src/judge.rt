ghost use Rattle.std.specs.Prelude.{◌<◌, IfErr, IfOk, IsSomeAnd, IsTrue, Option, length};
ghost use Rattle.qm_math.specs.Fraction.{Fraction};
ghost use Rattle.qm_game.specs.Goals.{goal_of};
ghost use Rattle.qm_model.specs.Boxes.{IsBox};
ghost use Rattle.qm_model.specs.Goals.{IsProper};
ghost use Rattle.qm_trees.specs.BoxPoints.{IsInBox};
ghost use Rattle.qm_search.specs.JudgeSteps.{IsClear, IsJudged, IsKnownPoint};
ghost use Rattle.qm_search.specs.PlaceSteps.{IsJudgePlace};
ghost use Rattle.qm_search.specs.StopSteps.{IsLeafStop};
ghost use Rattle.qm_search.specs.Windows.{IsProperWindow};

use crate::closings::closed_at_once;
use crate::leaf::leaf;
use crate::order::is_less;
use crate::outcome::Outcome;
use crate::stop::Stop;
use crate::window::{Window, reaches};
use qm_frac::Frac;
use qm_game::{Bx, Game, Goal, Place};
use qm_io::Memory;
use qm_relax::{BestPoint, RelaxedPoint, relax_point};
use qm_trees::Refute;
use std::alloc::Global;

/// What is told of a box before it is looked into.
#[derive(Debug, Drop)]
pub enum Judged {
    /// Its outcome.
    Known(Outcome),
    /// It may be looked into: with the best point of its relaxation, or none where the run fails or a point was known.
    Open(Option<BestPoint>),
}

/// A value that is to be exceeded has a positive denominator.
fn floor_is_proper(floor: &Goal)
    ensures { IsProper (goal_of floor.now) }
{
    if let Goal::Above(most) = floor {
        let _positive = most.den();
    }
}

/// Whether the point lies in the box.
fn lies_in(bx: &Bx, point: &[Frac]) -> bool
    ensures { IsTrue result → IsInBox bx.now point.now }
{
    if bx.len() != point.len() {
        return false;
    }
    for (range, value) in bx.as_slice().iter().zip(point) {
        // that it is a fraction
        let _positive = value.den();
        if is_less(*value, Frac::whole(range.low)) || is_less(Frac::whole(range.high), *value) {
            return false;
        }
    }
    true
}

/// Whether a point that is known lies in the box, and its value reaches the floor: then the relaxation needs no run.
fn is_open_by(bx: &Bx, known: &Option<BestPoint>, floor: &Goal) -> bool
    ensures { IsTrue result → IsSomeAnd known.now (λ best. IsInBox bx.now best.point) }
{
    match known {
        None => false,
        Some(best) => reaches(best.value, *floor) && lies_in(bx, best.point.as_slice()),
    }
}

/// What the relaxation tells of a clear box in which some whole variable is still to be set.
fn judged_by_relaxation(
    alloc: Global,
    here: Place<'_>,
    bx: &Bx,
    known: &Option<BestPoint>,
    floor: &Goal,
) -> Result<Judged, Memory>
    requires some { 0 < length here.rest.now }
    requires bx { IsBox here.game.now.vars bx.now }
    requires clear { IsClear here.game.now bx.now }
    requires known { IsKnownPoint here.game.now known.now }
    ensures { (cap : Option Fraction) → IfOk result (IsJudged here.entry.game.now here.entry.rest.now here.entry.depth bx.now (record { floor = floor.now; cap = cap })) }
{
    // that the problem is in order
    let _problem = here.game.problem();
    floor_is_proper(floor);
    if is_open_by(bx, known, floor) {
        return Ok(Judged::Open(None));
    }
    match relax_point(alloc, here.game, bx, floor)? {
        RelaxedPoint::Closed(combo) => {
            // that it is well formed
            let _form = combo.entries();
            Ok(Judged::Known(Outcome::Under(Refute::Close(combo))))
        }
        RelaxedPoint::Bound(best) => Ok(Judged::Open(Some(best))),
        RelaxedPoint::NoBound(_) => Ok(Judged::Open(None)),
    }
}

/// What is told of the box for the window: an empty range or a dead row closes it; where all whole variables are set, it
/// is a leaf; else its relaxation closes it, or it may be looked into, as also where a point that is known lies in it.
pub fn judge(
    alloc: Global,
    here: Place<'_>,
    bx: &Bx,
    known: &Option<BestPoint>,
    window: &Window,
) -> Result<Judged, Stop>
    requires place { IsJudgePlace here.game.now here.depth bx.now }
    requires known { IsKnownPoint here.game.now known.now }
    requires window { IsProperWindow window.now }
    ensures judged { IfOk result (IsJudged here.entry.game.now here.entry.rest.now here.entry.depth bx.now window.now) }
    ensures stop { IfErr result (IsLeafStop here.entry.game.now) }
{
    if let Some(refute) = closed_at_once(alloc, here.game, bx)? {
        return Ok(Judged::Known(Outcome::Under(refute)));
    }
    if here.rest.is_empty() {
        let played = leaf(alloc, here.game, bx)?;
        return Ok(Judged::Known(played.within(window)));
    }
    Ok(judged_by_relaxation(alloc, here, bx, known, &window.floor)?)
}
