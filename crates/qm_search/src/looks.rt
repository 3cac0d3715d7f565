ghost use Rattle.std.specs.Prelude.{◌≡◌, ◌+◌, ℕ, List, [], IfErr, IfOk, IfSome, None, drop, slice_set};
ghost use Rattle.qm_math.specs.Ranges.{IsBetween};
ghost use Rattle.qm_model.specs.Ranges.{range_at, single};
ghost use Rattle.qm_model.specs.declared.game.Problem.{Problem};
ghost use Rattle.qm_model.specs.declared.range.Range.{Range};
ghost use Rattle.qm_model.specs.declared.variable.Player.TheVariants.{All as Universal};
ghost use Rattle.qm_model.specs.declared.variable.Var.{Var};
ghost use Rattle.qm_trees.specs.RefuteRight.{IsRightPick};
ghost use Rattle.qm_legal.specs.SearchSteps.{SetsNext};
ghost use Rattle.qm_model.specs.Goals.{Goal};
ghost use Rattle.qm_search.specs.JudgeSteps.{IsBound, IsJudged, IsKnownPoint};
ghost use Rattle.qm_search.specs.LookSteps.{IsFirstLook, IsSeen};
ghost use Rattle.qm_search.specs.PartSteps.{IsStart};
ghost use Rattle.qm_search.specs.OutcomeSteps.{IsOutcome};
ghost use Rattle.qm_search.specs.PlaceSteps.{AreEntered, IsSearchBox, IsSearchPlace};
ghost use Rattle.qm_search.specs.StopSteps.{IsLeafStop};
ghost use Rattle.qm_search.specs.VisitSteps.{CompletesNext};
ghost use Rattle.qm_search.specs.declared.window.Window.{Window};
ghost use Rattle.qm_search.specs.Windows.{IsProperWindow};

use crate::answer::{Answer, legal_answer};
use crate::judge::{Judged, judge};
use crate::legality::{is_known, later_values, list_of};
use crate::order::is_less;
use crate::outcome::Outcome;
use crate::stop::Stop;
use crate::window::Window;
use qm_frac::Frac;
use qm_game::{Bx, Place};
use qm_io::{List, Memory};
use qm_legal::completed_at_once;
use qm_model::{Range, single};
use qm_relax::BestPoint;
use std::alloc::Global;

/// At the values of a range with more than so many no look is taken.
const MOST_VALUES: i64 = 4;

/// What a look at one value tells.
#[derive(Debug, Drop)]
pub enum Seen {
    /// The floor is closed behind it: what the visit comes to.
    Closed(Outcome),
    /// Nothing above this is reached behind it; and the best point there, where it isn't the one that was known.
    Bound(Frac, Option<BestPoint>),
    /// Nothing is told.
    Nothing,
}

/// What a look at the values of a universal variable tells before one of them is visited.
#[derive(Debug, Drop)]
pub enum FirstLook {
    /// The value behind which the floor is closed, and what the visit comes to.
    Closed(i64, Outcome),
    /// The value with which to begin.
    Begin(Lowest),
}

/// The value with the least bound so far, that bound, and the best point behind it, where it was looked for.
#[derive(Debug, Drop)]
pub struct Lowest {
    pub value: i64,
    bound: Option<Frac>,
    point: Option<BestPoint>,
}

impl Lowest {
    /// No bound is known yet.
    fn new(value: i64) -> Lowest
        ensures value { result.value ≡ value }
        ensures point { result.point ≡ None }
    {
        Lowest {
            value,
            bound: None,
            point: None,
        }
    }

    /// The lower of these and of this value's bound.
    fn or(self, range: Range, value: i64, bound: Frac, point: Option<BestPoint>) -> Lowest
        requires start { IsStart range self.value }
        requires within { IsBetween range.low range.high value }
        ensures start { IsStart range result.value }
        ensures point { (P : Problem) → IsKnownPoint P self.point → IsKnownPoint P point → IsKnownPoint P result.point }
    {
        match self.bound {
            Some(least) if !is_less(bound, least) => self,
            _ => Lowest {
                value,
                bound: Some(bound),
                point,
            },
        }
    }

    /// The point to begin with at this value: the best one behind it, where that is known, or else this one.
    pub fn point_at<'a>(&'a self, value: i64, known: &'a Option<BestPoint>) -> &'a Option<BestPoint>
        ensures { (P : Problem) → IsKnownPoint P self.now.point → IsKnownPoint P known.now → IsKnownPoint P result.now }
    {
        if value == self.value && self.point.is_some() {
            &self.point
        } else {
            known
        }
    }
}

/// Values that complete this value of the next variable, where some are found at once.
fn found_behind(
    alloc: Global,
    here: Place<'_>,
    bx: &mut Bx,
    value: i64,
) -> Result<Option<List<i64>>, Memory>
    requires player { SetsNext Universal here.rest.now }
    requires bx { IsSearchBox here.game.now here.depth bx.old }
    requires within { IsBetween (range_at bx.old here.depth).low (range_at bx.old here.depth).high value }
    ensures found { IfOk result (λ found. IfSome found (CompletesNext here.entry.game.now here.entry.depth bx.old value)) }
    ensures same { bx.new ≡ bx.old }
{
    let before = here.range(bx);
    here.put(bx, single(value));
    let found = completed_at_once(alloc, here.behind(), bx);
    here.put(bx, before);
    found
}

/// The same, where the known completion may be one with this value.
fn later_of(
    alloc: Global,
    here: Place<'_>,
    bx: &mut Bx,
    completion: &[i64],
    value: i64,
) -> Result<Option<List<i64>>, Memory>
    requires player { SetsNext Universal here.rest.now }
    requires place { IsSearchPlace here.game.now here.depth bx.old completion.now }
    requires within { IsBetween (range_at bx.old here.depth).low (range_at bx.old here.depth).high value }
    ensures found { IfOk result (λ found. IfSome found (CompletesNext here.entry.game.now here.entry.depth bx.old value)) }
    ensures same { bx.new ≡ bx.old }
{
    if is_known(here.game, completion, value) {
        return Ok(Some(list_of(alloc, later_values(completion))?));
    }
    found_behind(alloc, here, bx, value)
}

/// What is told of the box with this value, which these complete.
fn judged_behind(
    alloc: Global,
    here: Place<'_>,
    bx: &mut Bx,
    value: i64,
    later: &[i64],
    point: &Option<BestPoint>,
    window: &Window,
) -> Result<Judged, Stop>
    requires player { SetsNext Universal here.rest.now }
    requires bx { IsSearchBox here.game.now here.depth bx.old }
    requires within { IsBetween (range_at bx.old here.depth).low (range_at bx.old here.depth).high value }
    requires completes { CompletesNext here.game.now here.depth bx.old value later.now }
    requires entered { AreEntered here.game.now (here.depth + 1) bx.old }
    requires point { IsKnownPoint here.game.now point.now }
    requires window { IsProperWindow window.now }
    ensures judged { IfOk result (IsJudged here.entry.game.now (drop 1 here.entry.rest.now) (here.entry.depth + 1) (slice_set bx.old here.entry.depth (single value)) window.now) }
    ensures stop { IfErr result (IsLeafStop here.entry.game.now) }
    ensures same { bx.new ≡ bx.old }
{
    let before = here.range(bx);
    here.put(bx, single(value));
    let judged = judge(alloc, here.behind(), bx, point, window);
    here.put(bx, before);
    judged
}

/// What a known outcome behind a value that these complete tells.
fn closed(alloc: Global, value: i64, later: List<i64>, outcome: Outcome) -> Result<Seen, Memory>
    ensures { (P : Problem) (rest : List Var) (depth : ℕ) (bx : List Range) (W : Window) → IsProperWindow W → SetsNext Universal rest → IsRightPick P (drop 1 rest) depth bx value later → IsOutcome P [] [] (drop 1 rest) (depth + 1) (slice_set bx depth (single value)) W outcome → IfOk result (IsSeen P rest depth bx W) }
{
    match legal_answer(alloc, value, later, outcome)? {
        Answer::Ended(outcome) => Ok(Seen::Closed(outcome)),
        Answer::Kept(_) => Ok(Seen::Nothing),
    }
}

/// What a box tells that may be looked into, perhaps with a best point of its own, or else by the known one.
fn bounded(bound: Option<BestPoint>, known: &Option<BestPoint>) -> Seen
    ensures { (P : Problem) (rest : List Var) (depth : ℕ) (bx behind : List Range) (G : Goal) (W : Window) → IsBound P behind G bound → IsSeen P rest depth bx W result }
{
    match bound {
        Some(best) => Seen::Bound(best.value, Some(best)),
        None => match known {
            Some(best) => Seen::Bound(best.value, None),
            None => Seen::Nothing,
        },
    }
}

/// What a look at this value tells.
fn looked_at(
    alloc: Global,
    here: Place<'_>,
    bx: &mut Bx,
    completion: &[i64],
    value: i64,
    point: &Option<BestPoint>,
    window: &Window,
) -> Result<Seen, Stop>
    requires player { SetsNext Universal here.rest.now }
    requires place { IsSearchPlace here.game.now here.depth bx.old completion.now }
    requires within { IsBetween (range_at bx.old here.depth).low (range_at bx.old here.depth).high value }
    requires entered { AreEntered here.game.now (here.depth + 1) bx.old }
    requires point { IsKnownPoint here.game.now point.now }
    requires window { IsProperWindow window.now }
    ensures seen { IfOk result (IsSeen here.entry.game.now here.entry.rest.now here.entry.depth bx.old window.now) }
    ensures stop { IfErr result (IsLeafStop here.entry.game.now) }
    ensures same { bx.new ≡ bx.old }
{
    let Some(later) = later_of(alloc, here, bx, completion, value)? else {
        return Ok(Seen::Nothing);
    };
    match judged_behind(alloc, here, bx, value, later.as_slice(), point, window)? {
        Judged::Known(outcome) => Ok(closed(alloc, value, later, outcome)?),
        Judged::Open(bound) => Ok(bounded(bound, point)),
    }
}

/// Whether no look is taken at the values: they are too many, or no variable is left behind them.
fn is_passed_over(here: Place<'_>, range: Range) -> bool {
    here.rest.len() < 2 || MOST_VALUES <= range.high.saturating_sub(range.low)
}

/// The value behind which the floor is closed, where there is one; else the value with the least bound, with which to begin,
/// or this one where none is known.
pub fn first_look(
    alloc: Global,
    here: Place<'_>,
    bx: &mut Bx,
    completion: &[i64],
    start: i64,
    point: &Option<BestPoint>,
    window: &Window,
) -> Result<FirstLook, Stop>
    requires player { SetsNext Universal here.rest.now }
    requires place { IsSearchPlace here.game.now here.depth bx.old completion.now }
    requires start { IsStart (range_at bx.old here.depth) start }
    requires entered { AreEntered here.game.now (here.depth + 1) bx.old }
    requires point { IsKnownPoint here.game.now point.now }
    requires window { IsProperWindow window.now }
    ensures look { IfOk result (IsFirstLook here.entry.game.now here.entry.rest.now here.entry.depth bx.old window.now) }
    ensures stop { IfErr result (IsLeafStop here.entry.game.now) }
    ensures same { bx.new ≡ bx.old }
{
    let range = here.range(bx);
    let mut lowest = Lowest::new(start);
    if is_passed_over(here, range) {
        return Ok(FirstLook::Begin(lowest));
    }
    for value in range.low..=range.high {
        match looked_at(alloc, here, bx, completion, value, point, window)? {
            Seen::Closed(outcome) => return Ok(FirstLook::Closed(value, outcome)),
            Seen::Bound(bound, best) => lowest = lowest.or(range, value, bound, best),
            Seen::Nothing => {}
        }
    }
    Ok(FirstLook::Begin(lowest))
}
