ghost use Rattle.std.specs.Prelude.{◌≡◌, ◌+◌, ◌<◌, ◌≤◌, ℤ, List, [], All, drop, length, slice_set, true, Ok};
ghost use Rattle.qm_game.specs.Goals.{goal_of};
ghost use Rattle.qm_model.specs.Boxes.{IsBox, IsInside, whole_box_of};
ghost use Rattle.qm_model.specs.Goals.{IsProper};
ghost use Rattle.qm_model.specs.Legal.{IsLegal, IsPrefix};
ghost use Rattle.qm_model.specs.Plays.{whole_vars};
ghost use Rattle.qm_model.specs.Ranges.{range_at};
ghost use Rattle.qm_model.specs.Sound.{IsRowOver};
ghost use Rattle.qm_model.specs.Wins.{Wins};
ghost use Rattle.qm_trees.specs.declared.refutation.Refute.{out-Refute};
ghost use Rattle.qm_trees.specs.BoxPoints.{BeginIn};
ghost use Rattle.qm_trees.specs.Cuts.{HoldCuts};
ghost use Rattle.qm_trees.specs.Verdicts.{answer_of};
ghost use Rattle.qm_trees.specs.Ranges.{judge_each};
ghost use Rattle.qm_trees.specs.RefuteJudgement.{judge_end, judge_refute, range_of};
ghost use Rattle.qm_trees.specs.RefuteRight.{IsRightRefutation};
ghost use Rattle.qm_refute.specs.Parts.{judge_over, judge_part};
ghost use Rattle.qm_cover.specs.Steps.{first_of};

use crate::allowed::can_pick;
use crate::closing::closes_here;
use crate::counts::over_count_is_right;
use crate::sought::Sought;
use qm_cover::{follows, is_last};
use qm_frac::Leaves;
use qm_game::{Bx, Game, Goal, Place, Range, Row};
use qm_model::{after, single, start};
use qm_trees::{Refute, RefutePart};

/// Whether the refutation shows that the goal can't be reached from any legal prefix of this length whose values lie
/// in the box: each rule is met, in the order of the text. Leaves where the first operation leaves, if no rule is
/// broken before. The box stays as it was. If it passes, the cuts hold, and the ranges from the depth on are the
/// variables' own bounds, then no legal prefix of this length in the box wins the goal.
pub fn test(
    game: &Game,
    cuts: &[Row],
    depth: usize,
    bx: &mut Bx,
    goal: &Goal,
    tree: &Refute,
) -> Result<bool, Leaves>
    requires cuts { All (IsRowOver game.now.vars) cuts.now }
    requires depth { depth ≤ game.now.wholes }
    requires bx { IsBox game.now.vars bx.old }
    ensures answer { result ≡ answer_of (judge_refute game.now cuts.now [] (goal_of goal.now) (drop depth (whole_vars game.now)) depth bx.old tree.now) }
    ensures right { result ≡ Ok true → IsRightRefutation game.now cuts.now [] (goal_of goal.now) (drop depth (whole_vars game.now)) depth bx.old tree.now }
    ensures refuses { result ≡ Ok true → HoldCuts game.now cuts.now → (prefix : List ℤ) → length prefix ≡ depth → IsPrefix game.now prefix → BeginIn bx.old prefix → drop depth bx.old ≡ whole_box_of (drop depth game.now.vars) → IsLegal game.now prefix → Wins game.now prefix (goal_of goal.now) → ⊥ }
    ensures same { bx.new ≡ bx.old }
{
    goal_is_proper(goal);
    // that the game is sound
    let _problem = game.problem();
    test_from(Place::at(game, depth), Sought { cuts, goal }, bx, tree)
}

/// A value that is to be exceeded has a positive denominator.
fn goal_is_proper(goal: &Goal)
    ensures { IsProper (goal_of goal.now) }
{
    if let Goal::Above(least) = goal {
        let _positive = least.den();
    }
}

/// Whether the refutation passes from a place on.
#[cycle(judge)]
fn test_from(
    here: Place<'_>,
    sought: Sought<'_>,
    bx: &mut Bx,
    tree: &Refute,
) -> Result<bool, Leaves>
    requires cuts { All (IsRowOver here.game.now.vars) sought.cuts.now }
    requires bx { IsBox here.game.now.vars bx.old }
    ensures answer { result ≡ answer_of (judge_refute here.entry.game.now sought.entry.cuts.now [] (goal_of sought.entry.goal.now) here.entry.rest.now here.entry.depth bx.old tree.now) }
    ensures same { bx.new ≡ bx.old }
{
    let Some(_next) = here.rest.split_first() else {
        return test_end(here.game, sought, bx, tree);
    };
    match tree {
        Refute::Close(combo) => closes_here(here.game, sought, bx, combo),
        Refute::Over { parts } => test_over(here, sought, bx, parts.as_slice()),
        Refute::Pick {
            value,
            completion,
            below,
        } => {
            if !can_pick(here, bx, *value, completion.as_slice()) {
                return Ok(false);
            }
            test_below(here, sought, bx, single(*value), below.get())
        }
    }
}

/// Whether the refutation closes, where all whole variables are set.
fn test_end(game: &Game, sought: Sought<'_>, bx: &Bx, tree: &Refute) -> Result<bool, Leaves>
    requires cuts { All (IsRowOver game.now.vars) sought.cuts.now }
    requires bx { IsBox game.now.vars bx.now }
    ensures { result ≡ answer_of (judge_end game.now sought.entry.cuts.now (goal_of sought.entry.goal.now) bx.now (out-Refute tree.now)) }
{
    match tree {
        Refute::Close(combo) => closes_here(game, sought, bx, combo),
        _ => Ok(false),
    }
}

/// Whether there are as many parts as the next variable asks for, and they pass.
#[cycle(judge)]
fn test_over(
    here: Place<'_>,
    sought: Sought<'_>,
    bx: &mut Bx,
    parts: &[RefutePart],
) -> Result<bool, Leaves>
    requires cuts { All (IsRowOver here.game.now.vars) sought.cuts.now }
    requires bx { IsBox here.game.now.vars bx.old }
    requires some { 0 < length here.rest.now }
    ensures answer { result ≡ answer_of (judge_over here.entry.game.now sought.entry.cuts.now (goal_of sought.entry.goal.now) here.entry.rest.now here.entry.depth bx.old parts.now) }
    ensures same { bx.new ≡ bx.old }
{
    let covered = here.range(bx);
    if !over_count_is_right(&here.rest[0], covered, parts.len()) {
        return Ok(false);
    }
    test_over_parts(here, sought, bx, covered, parts)
}

/// Whether the parts' ranges follow on from the low to the high end, and the refutation below each passes.
#[cycle(judge)]
fn test_over_parts(
    here: Place<'_>,
    sought: Sought<'_>,
    bx: &mut Bx,
    covered: Range,
    parts: &[RefutePart],
) -> Result<bool, Leaves>
    requires cuts { All (IsRowOver here.game.now.vars) sought.cuts.now }
    requires bx { IsBox here.game.now.vars bx.old }
    requires some { 0 < length here.rest.now }
    requires covered { covered ≡ range_at bx.old here.depth }
    ensures answer { result ≡ answer_of (judge_each range_of (judge_part here.entry.game.now sought.entry.cuts.now (goal_of sought.entry.goal.now) here.entry.rest.now here.entry.depth bx.old) covered.low covered.high parts.now) }
    ensures same { bx.new ≡ bx.old }
{
    let mut next = start(covered);
    for (at, part) in parts.iter().enumerate() {
        let follows = follows(next, covered, is_last(parts, at), part.range);
        if !test_part(here, sought, bx, follows, part)? {
            return Ok(false);
        }
        next = after(part.range);
    }
    Ok(true)
}

/// Whether the part's range follows on, and the refutation below it passes.
#[cycle(judge)]
fn test_part(
    here: Place<'_>,
    sought: Sought<'_>,
    bx: &mut Bx,
    follows: bool,
    part: &RefutePart,
) -> Result<bool, Leaves>
    requires cuts { All (IsRowOver here.game.now.vars) sought.cuts.now }
    requires bx { IsBox here.game.now.vars bx.old }
    requires some { 0 < length here.rest.now }
    requires inside { follows ≡ true → IsInside (range_of part.now) (range_at bx.old here.depth) }
    ensures answer { result ≡ first_of (Ok follows) (answer_of (judge_part here.entry.game.now sought.entry.cuts.now (goal_of sought.entry.goal.now) here.entry.rest.now here.entry.depth bx.old part.now)) }
    ensures same { bx.new ≡ bx.old }
{
    if !follows {
        return Ok(false);
    }
    test_below(here, sought, bx, part.range, &part.below)
}

/// Whether the refutation passes behind the next variable, once that has this range.
#[cycle(judge)]
#[tactic(auto, using(qm_cover::proofs::BoxPlaces::box_narrowed, qm_cover::proofs::Places::put_back_at))]
fn test_below(
    here: Place<'_>,
    sought: Sought<'_>,
    bx: &mut Bx,
    range: Range,
    tree: &Refute,
) -> Result<bool, Leaves>
    requires cuts { All (IsRowOver here.game.now.vars) sought.cuts.now }
    requires bx { IsBox here.game.now.vars bx.old }
    requires some { 0 < length here.rest.now }
    requires inside { IsInside range (range_at bx.old here.depth) }
    ensures answer { result ≡ answer_of (judge_refute here.entry.game.now sought.entry.cuts.now [] (goal_of sought.entry.goal.now) (drop 1 here.entry.rest.now) (here.entry.depth + 1) (slice_set bx.old here.entry.depth range) tree.now) }
    ensures same { bx.new ≡ bx.old }
{
    let before = here.range(bx);
    here.put(bx, range);
    let answer = test_from(here.behind(), sought, bx, tree);
    here.put(bx, before);
    answer
}
