ghost use Rattle.std.specs.Prelude.{◌≡◌, ◌+◌, ◌<◌, ℤ, List, drop, length, slice_set, true, Ok};
ghost use Rattle.qm_model.specs.Boxes.{IsBox, IsInside};
ghost use Rattle.qm_model.specs.Plays.{IsPlay, whole_vars};
ghost use Rattle.qm_model.specs.Ranges.{range_at};
ghost use Rattle.qm_trees.specs.EmptyJudgement.{judge_empty, range_of};
ghost use Rattle.qm_trees.specs.EmptyRight.{IsRightEmpty};
ghost use Rattle.qm_trees.specs.Picks.{Fit};
ghost use Rattle.qm_trees.specs.Ranges.{judge_each};
ghost use Rattle.qm_trees.specs.Verdicts.{answer_of};
ghost use Rattle.qm_cover.specs.Steps.{first_of};
ghost use Rattle.qm_combo.specs.Splits.{judge_part, judge_split};

use crate::void::closes_empty;
use qm_cover::{count_is_right, follows, is_last};
use qm_frac::Leaves;
use qm_game::{Bx, Place, Range};
use qm_model::{Game, after, is_for_all, start};
use qm_trees::{Empty, EmptyPart};

/// Whether the tree shows that no universal play has its values in the box: each rule is met, in the order of the
/// text. Leaves where the first operation leaves, if no rule is broken before. The box stays as it was.
pub fn test_empty(game: &Game, bx: &mut Bx, tree: &Empty) -> Result<bool, Leaves>
    requires { IsBox game.now.vars bx.old }
    ensures answer { result ≡ answer_of (judge_empty game.now (whole_vars game.now) 0 bx.old tree.now) }
    ensures right { result ≡ Ok true → IsRightEmpty game.now (whole_vars game.now) 0 bx.old tree.now }
    ensures none { result ≡ Ok true → (us : List ℤ) → IsPlay game.now us → Fit (whole_vars game.now) bx.old us → ⊥ }
    ensures same { bx.new ≡ bx.old }
{
    // that the game is sound
    let _problem = game.problem();
    test_from(Place::at(game, 0), bx, tree)
}

/// Whether the tree passes from a place on, where the variables that are still to be set may be split.
#[cycle(test_empty)]
fn test_from(here: Place<'_>, bx: &mut Bx, tree: &Empty) -> Result<bool, Leaves>
    requires { IsBox here.game.now.vars bx.old }
    ensures answer { result ≡ answer_of (judge_empty here.entry.game.now here.entry.rest.now here.entry.depth bx.old tree.now) }
    ensures same { bx.new ≡ bx.old }
{
    match tree {
        Empty::Close(combo) => closes_empty(here.game, bx, combo),
        Empty::Split { var, parts } => {
            let at = *var as usize;
            if at < here.depth || at >= here.game.problem().wholes as usize {
                return Ok(false);
            }
            test_split(Place::at(here.game, at), bx, parts.as_slice())
        }
    }
}

/// Whether the universal player sets the next variable, and the parts cover its range and pass.
#[cycle(test_empty)]
fn test_split(here: Place<'_>, bx: &mut Bx, parts: &[EmptyPart]) -> Result<bool, Leaves>
    requires bx { IsBox here.game.now.vars bx.old }
    requires some { 0 < length here.rest.now }
    ensures answer { result ≡ answer_of (judge_split here.entry.game.now here.entry.rest.now here.entry.depth bx.old parts.now) }
    ensures same { bx.new ≡ bx.old }
{
    let covered = here.range(bx);
    if !is_for_all(&here.rest[0]) || !count_is_right(covered, parts.len()) {
        return Ok(false);
    }
    test_split_parts(here, bx, covered, parts)
}

/// Whether the parts' ranges follow on from the low to the high end, and the tree below each passes.
#[cycle(test_empty)]
fn test_split_parts(
    here: Place<'_>,
    bx: &mut Bx,
    covered: Range,
    parts: &[EmptyPart],
) -> Result<bool, Leaves>
    requires bx { IsBox here.game.now.vars bx.old }
    requires some { 0 < length here.rest.now }
    requires covered { covered ≡ range_at bx.old here.depth }
    ensures answer { result ≡ answer_of (judge_each range_of (judge_part here.entry.game.now here.entry.rest.now here.entry.depth bx.old) covered.low covered.high parts.now) }
    ensures same { bx.new ≡ bx.old }
{
    let mut next = start(covered);
    for (at, part) in parts.iter().enumerate() {
        let follows = follows(next, covered, is_last(parts, at), part.range);
        if !test_part(here, bx, follows, part)? {
            return Ok(false);
        }
        next = after(part.range);
    }
    Ok(true)
}

/// Whether the part's range follows on, and the tree below it passes.
#[cycle(test_empty)]
fn test_part(here: Place<'_>, bx: &mut Bx, follows: bool, part: &EmptyPart) -> Result<bool, Leaves>
    requires bx { IsBox here.game.now.vars bx.old }
    requires some { 0 < length here.rest.now }
    requires inside { follows ≡ true → IsInside (range_of part.now) (range_at bx.old here.depth) }
    ensures answer { result ≡ first_of (Ok follows) (answer_of (judge_part here.entry.game.now here.entry.rest.now here.entry.depth bx.old part.now)) }
    ensures same { bx.new ≡ bx.old }
{
    if !follows {
        return Ok(false);
    }
    test_below(here, bx, part.range, &part.below)
}

/// Whether the tree passes behind the next variable, once that has this range.
#[cycle(test_empty)]
#[tactic(auto, using(qm_cover::proofs::BoxPlaces::box_narrowed, qm_cover::proofs::Places::put_back_at))]
fn test_below(here: Place<'_>, bx: &mut Bx, range: Range, tree: &Empty) -> Result<bool, Leaves>
    requires bx { IsBox here.game.now.vars bx.old }
    requires some { 0 < length here.rest.now }
    requires inside { IsInside range (range_at bx.old here.depth) }
    ensures answer { result ≡ answer_of (judge_empty here.entry.game.now (drop 1 here.entry.rest.now) (here.entry.depth + 1) (slice_set bx.old here.entry.depth range) tree.now) }
    ensures same { bx.new ≡ bx.old }
{
    let before = here.range(bx);
    here.put(bx, range);
    let answer = test_from(here.behind(), bx, tree);
    here.put(bx, before);
    answer
}
