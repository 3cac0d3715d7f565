ghost use Rattle.std.specs.Prelude.{◌≡◌, ◌+◌, ◌<◌, ◌≤◌, ℤ, List, [], drop, length, slice_set, true, Ok};
ghost use Rattle.qm_model.specs.Boxes.{IsBox, IsInside, whole_box_of};
ghost use Rattle.qm_model.specs.Goals.{AtLeast};
ghost use Rattle.qm_model.specs.Plays.{IsPlay, whole_vars};
ghost use Rattle.qm_model.specs.Ranges.{range_at};
ghost use Rattle.qm_model.specs.Wins.{Wins};
ghost use Rattle.qm_trees.specs.PolicyRight.{IsRightPolicy, IsPolicyInRange};
ghost use Rattle.qm_trees.specs.Reaching.{PolicyReaches};
ghost use Rattle.qm_trees.specs.declared.policy.Policy.{out-Policy};
ghost use Rattle.qm_trees.specs.Verdicts.{answer_of};
ghost use Rattle.qm_trees.specs.Ranges.{judge_each};
ghost use Rattle.qm_trees.specs.EmptyJudgement.{judge_empty};
ghost use Rattle.qm_trees.specs.PolicyJudgement.{judge_end, judge_policy, range_of};
ghost use Rattle.qm_policy.specs.Parts.{judge_answer, judge_part};
ghost use Rattle.qm_cover.specs.Steps.{first_of};

use crate::leaf::passes;
use qm_combo::test_empty;
use qm_cover::{count_is_right, follows, is_last};
use qm_frac::{Frac, Leaves};
use qm_game::{Bx, Game, Place, Range};
use qm_model::{after, contains, is_for_all, single, start};
use qm_trees::{Below, Empty, Policy, PolicyPart, values_are_fractions};

/// Whether the policy reaches the value from each prefix in the box that universal plays have: each rule is met, in
/// the order of the text. Leaves where the first operation leaves, if no rule is broken before. The box stays as it was. If the
/// policy passes over the whole box, it reaches the value on each universal play, and the existential player wins it.
pub fn test(game: &Game, bx: &mut Bx, value: &Frac, policy: &Policy) -> Result<bool, Leaves>
    requires { IsBox game.now.vars bx.old }
    ensures answer { result ≡ answer_of (judge_policy game.now value.now (whole_vars game.now) 0 bx.old policy.now) }
    ensures right { result ≡ Ok true → IsRightPolicy game.now value.now (whole_vars game.now) 0 bx.old policy.now }
    ensures reaches { result ≡ Ok true → bx.old ≡ whole_box_of game.now.vars → (us : List ℤ) → IsPlay game.now us → PolicyReaches game.now value.now (whole_vars game.now) [] us policy.now }
    ensures wins { result ≡ Ok true → bx.old ≡ whole_box_of game.now.vars → Wins game.now [] (AtLeast value.now) }
    ensures same { bx.new ≡ bx.old }
{
    // that the game is sound
    let _problem = game.problem();
    test_from(game, 0, bx, value, policy)
}

/// Whether the policy, which begins at this depth, reaches the value from each prefix in the box that universal plays
/// have: each rule is met, in the order of the text. Leaves where the first operation leaves, if no rule is broken
/// before. The box stays as it was.
pub fn test_from(
    game: &Game,
    depth: usize,
    bx: &mut Bx,
    value: &Frac,
    policy: &Policy,
) -> Result<bool, Leaves>
    requires depth { depth ≤ game.now.wholes }
    requires bx { IsBox game.now.vars bx.old }
    ensures answer { result ≡ answer_of (judge_policy game.now value.now (drop depth (whole_vars game.now)) depth bx.old policy.now) }
    ensures right { result ≡ Ok true → IsRightPolicy game.now value.now (drop depth (whole_vars game.now)) depth bx.old policy.now }
    ensures in_range { result ≡ Ok true → IsPolicyInRange game.now value.now (drop depth (whole_vars game.now)) depth bx.old policy.now }
    ensures same { bx.new ≡ bx.old }
{
    let _positive = value.den();
    // that the game is sound
    let _problem = game.problem();
    test_here(Place::at(game, depth), bx, *value, policy)
}

/// Whether the policy passes from a place on.
#[cycle(judge)]
fn test_here(here: Place<'_>, bx: &mut Bx, value: Frac, policy: &Policy) -> Result<bool, Leaves>
    requires { IsBox here.game.now.vars bx.old }
    ensures answer { result ≡ answer_of (judge_policy here.entry.game.now value here.entry.rest.now here.entry.depth bx.old policy.now) }
    ensures same { bx.new ≡ bx.old }
{
    match here.rest.split_first() {
        None => test_end(here.game, bx, value, policy),
        Some((var, _later)) => match policy {
            Policy::Leaf { .. } => Ok(false),
            Policy::Choose {
                value: chosen,
                below,
            } => {
                if is_for_all(var) || !contains(here.range(bx), *chosen) {
                    return Ok(false);
                }
                test_below(here, bx, value, single(*chosen), below.get())
            }
            Policy::Answer { parts } => test_answer(here, bx, value, parts.as_slice()),
        },
    }
}

/// Whether the universal player sets the next variable, and the parts cover its range and pass.
#[cycle(judge)]
fn test_answer(
    here: Place<'_>,
    bx: &mut Bx,
    value: Frac,
    parts: &[PolicyPart],
) -> Result<bool, Leaves>
    requires bx { IsBox here.game.now.vars bx.old }
    requires some { 0 < length here.rest.now }
    ensures answer { result ≡ answer_of (judge_answer here.entry.game.now value here.entry.rest.now here.entry.depth bx.old parts.now) }
    ensures same { bx.new ≡ bx.old }
{
    let covered = here.range(bx);
    if !is_for_all(&here.rest[0]) || !count_is_right(covered, parts.len()) {
        return Ok(false);
    }
    test_answer_parts(here, bx, value, covered, parts)
}

/// Whether the parts' ranges follow on from the low to the high end, and what stands below each passes.
#[cycle(judge)]
fn test_answer_parts(
    here: Place<'_>,
    bx: &mut Bx,
    value: Frac,
    covered: Range,
    parts: &[PolicyPart],
) -> Result<bool, Leaves>
    requires bx { IsBox here.game.now.vars bx.old }
    requires some { 0 < length here.rest.now }
    requires covered { covered ≡ range_at bx.old here.depth }
    ensures answer { result ≡ answer_of (judge_each range_of (judge_part here.entry.game.now value here.entry.rest.now here.entry.depth bx.old) covered.low covered.high parts.now) }
    ensures same { bx.new ≡ bx.old }
{
    let mut next = start(covered);
    for (at, part) in parts.iter().enumerate() {
        let follows = follows(next, covered, is_last(parts, at), part.range);
        if !test_part(here, bx, value, follows, part)? {
            return Ok(false);
        }
        next = after(part.range);
    }
    Ok(true)
}

/// Whether the part's range follows on, and what stands below it passes: a policy, or a tree that shows that no
/// universal play has its values there.
#[cycle(judge)]
fn test_part(
    here: Place<'_>,
    bx: &mut Bx,
    value: Frac,
    follows: bool,
    part: &PolicyPart,
) -> Result<bool, Leaves>
    requires bx { IsBox here.game.now.vars bx.old }
    requires some { 0 < length here.rest.now }
    requires inside { follows ≡ true → IsInside (range_of part.now) (range_at bx.old here.depth) }
    ensures answer { result ≡ first_of (Ok follows) (answer_of (judge_part here.entry.game.now value here.entry.rest.now here.entry.depth bx.old part.now)) }
    ensures same { bx.new ≡ bx.old }
{
    if !follows {
        return Ok(false);
    }
    match &part.below {
        Below::On(policy) => test_below(here, bx, value, part.range, policy),
        Below::Illegal(tree) => test_illegal(here, bx, part.range, tree),
    }
}

/// Whether the policy passes behind the next variable, once that has this range.
#[cycle(judge)]
#[tactic(auto, using(qm_cover::proofs::BoxPlaces::box_narrowed, qm_cover::proofs::Places::put_back_at))]
fn test_below(
    here: Place<'_>,
    bx: &mut Bx,
    value: Frac,
    range: Range,
    policy: &Policy,
) -> Result<bool, Leaves>
    requires bx { IsBox here.game.now.vars bx.old }
    requires some { 0 < length here.rest.now }
    requires inside { IsInside range (range_at bx.old here.depth) }
    ensures answer { result ≡ answer_of (judge_policy here.entry.game.now value (drop 1 here.entry.rest.now) (here.entry.depth + 1) (slice_set bx.old here.entry.depth range) policy.now) }
    ensures same { bx.new ≡ bx.old }
{
    let before = here.range(bx);
    here.put(bx, range);
    let answer = test_here(here.behind(), bx, value, policy);
    here.put(bx, before);
    answer
}

/// Whether the tree shows that no universal play has its values in the box, once the next variable has this range.
#[tactic(auto, using(qm_cover::proofs::BoxPlaces::box_narrowed, qm_cover::proofs::Places::put_back_at))]
fn test_illegal(here: Place<'_>, bx: &mut Bx, range: Range, tree: &Empty) -> Result<bool, Leaves>
    requires bx { IsBox here.game.now.vars bx.old }
    requires some { 0 < length here.rest.now }
    requires inside { IsInside range (range_at bx.old here.depth) }
    ensures answer { result ≡ answer_of (judge_empty here.entry.game.now (whole_vars here.entry.game.now) 0 (slice_set bx.old here.entry.depth range) tree.now) }
    ensures same { bx.new ≡ bx.old }
{
    let kept = here.range(bx);
    here.put(bx, range);
    let answer = test_empty(here.game, bx, tree);
    here.put(bx, kept);
    answer
}

/// Whether the policy is a leaf with a value for each continuous variable, and passes.
fn test_end(game: &Game, bx: &Bx, value: Frac, policy: &Policy) -> Result<bool, Leaves>
    requires { length bx.now ≡ length game.now.vars }
    ensures { result ≡ answer_of (judge_end game.now value bx.now (out-Policy policy.now)) }
{
    match policy {
        Policy::Leaf { point } => {
            let problem = game.problem();
            if point.len() != problem.vars.len() - problem.wholes as usize {
                return Ok(false);
            }
            values_are_fractions(point.as_slice());
            passes(problem, bx.as_slice(), point.as_slice(), value)
        }
        _ => Ok(false),
    }
}
