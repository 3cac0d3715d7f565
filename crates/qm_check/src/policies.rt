ghost use Rattle.std.specs.Prelude.{◌≡◌, ◌<◌, ◌+◌, ◌++◌, ◌^◌, ◌∷◌, OnOk, Ok, length, slice_set};
ghost use Rattle.qm_model.specs.declared.game.Problem.{Problem};
ghost use Rattle.qm_model.specs.Plays.{whole_vars};
ghost use Rattle.qm_model.specs.Points.{continuous_vars};
ghost use Rattle.qm_model.specs.Ranges.{is_in, range_at, single};
ghost use Rattle.qm_trees.specs.declared.rule.Rule.TheVariants as broken;
ghost use Rattle.qm_trees.specs.Leaves.{leaf_passes};
ghost use Rattle.qm_trees.specs.Ranges.{counts_right};
ghost use Rattle.qm_trees.specs.Verdicts.{line};
ghost use Rattle.qm_certfile.specs.Styles.{first_style};
ghost use Rattle.qm_certread.specs.Tasks.{Below, Policies, Policy, follow, parts};
ghost use Rattle.qm_certread.specs.FirstFault.{policy_rule};
ghost use Rattle.qm_check.specs.Judging.{IsJudged, line_verdict, tasks_behind};
ghost use Rattle.qm_check.specs.PolicySaid.{CanSay, policy_node};
ghost use Rattle.qm_check.specs.Walks.{IsWalk, tasks_of};

use crate::due::{Kind, Tree};
use crate::fault::{Fault, fault_of, pass};
use crate::going::{part, push_tree, set};
use crate::leaf::leaf_passes;
use crate::parts::count_is_right;
use crate::said::{PolicySaid, policy_said};
use crate::walk::Walk;
use qm_certread::is_alone;
use qm_frac::Frac;
use qm_model::{Game, contains, range_in};
use qm_trees::Rule;
use std::alloc::Global;

/// Takes the choice of a value.
fn choose(walk: &mut Walk, value: Frac, depth: u32, chosen: i64) -> Result<(), Fault>
    requires inside { depth < length walk.old.bx }
    requires few { length walk.old.bx < 2 ^ 29 }
    ensures judged { IsJudged (line broken.Choose (Ok (is_in (range_at walk.old.bx depth) chosen))) result }
    ensures due { OnOk result (tasks_of walk.new ≡ Policy value (depth + 1) (slice_set walk.old.bx depth (single chosen)) ∷ tasks_of walk.old) }
    ensures stays { OnOk result ((P : Problem) → IsWalk P walk.old → IsWalk P walk.new) }
{
    if !contains(range_in(walk.bx.as_slice(), depth as usize), chosen) {
        return Err(Fault::Broken(Rule::Choose));
    }
    let tree = Tree::Policy {
        value,
        depth: depth + 1,
    };
    match set(walk, depth, chosen, tree) {
        Ok(()) => Ok(()),
        Err(_) => Err(Fault::Memory),
    }
}

/// Takes the count of the ranges for a universal variable.
fn answer(walk: &mut Walk, value: Frac, depth: u32, count: u32) -> Result<(), Fault>
    requires { depth < length walk.old.bx }
    ensures judged { IsJudged (line broken.Cover (Ok (counts_right (range_at walk.old.bx depth) count))) result }
    ensures due { OnOk result (tasks_of walk.new ≡ parts (Policies value) depth walk.old.bx count ++ tasks_of walk.old) }
    ensures stays { OnOk result ((P : Problem) → IsWalk P walk.old → IsWalk P walk.new) }
{
    if !count_is_right(range_in(walk.bx.as_slice(), depth as usize), count) {
        return Err(Fault::Broken(Rule::Cover));
    }
    match part(walk, Kind::Policies(value), depth, count) {
        Ok(()) => Ok(()),
        Err(_) => Err(Fault::Memory),
    }
}

/// Takes what a line of a policy says.
fn take_said(
    game: &Game,
    walk: &mut Walk,
    value: Frac,
    depth: u32,
    said: PolicySaid,
) -> Result<(), Fault>
    requires walk { IsWalk game.now walk.old }
    requires fits { CanSay game.now depth said }
    ensures judged { IsJudged (policy_rule game.now value depth walk.old.bx (policy_node said)) result }
    ensures due { OnOk result (tasks_of walk.new ≡ follow first_style game.now (Policy value depth walk.old.bx) (policy_node said) ++ tasks_of walk.old) }
    ensures stays { OnOk result (IsWalk game.now walk.new) }
{
    // that there are few variables
    let _problem = game.problem();
    match said {
        PolicySaid::Choose(chosen) => choose(walk, value, depth, chosen),
        PolicySaid::Answer(count) => answer(walk, value, depth, count),
        PolicySaid::Leaf(point) => pass(
            Rule::Leaf,
            leaf_passes(game, value, walk.bx.as_slice(), point.as_slice()),
        ),
    }
}

/// Takes a line of a policy.
pub(crate) fn take_policy(
    alloc: Global,
    game: &Game,
    walk: &mut Walk,
    value: Frac,
    depth: u32,
    line: &[u8],
) -> Result<(), Fault>
    requires { IsWalk game.now walk.old }
    ensures judged { IsJudged (line_verdict game.now (Policy value depth walk.old.bx) line.now) result }
    ensures due { OnOk result (tasks_of walk.new ≡ tasks_behind game.now (Policy value depth walk.old.bx) line.now (tasks_of walk.old)) }
    ensures stays { OnOk result (IsWalk game.now walk.new) }
{
    let problem = game.problem();
    match policy_said(alloc, problem, depth as usize, line) {
        Ok(said) => take_said(game, walk, value, depth, said),
        Err(unread) => Err(fault_of(unread)),
    }
}

/// Takes a line below a range of a policy.
pub(crate) fn take_below(
    alloc: Global,
    game: &Game,
    walk: &mut Walk,
    value: Frac,
    depth: u32,
    line: &[u8],
) -> Result<(), Fault>
    requires { IsWalk game.now walk.old }
    ensures judged { IsJudged (line_verdict game.now (Below value depth walk.old.bx) line.now) result }
    ensures due { OnOk result (tasks_of walk.new ≡ tasks_behind game.now (Below value depth walk.old.bx) line.now (tasks_of walk.old)) }
    ensures stays { OnOk result (IsWalk game.now walk.new) }
{
    if is_alone(b"illegal", line) {
        return match push_tree(walk, Tree::Empty { position: 0 }) {
            Ok(()) => Ok(()),
            Err(_) => Err(Fault::Memory),
        };
    }
    let problem = game.problem();
    match policy_said(alloc, problem, depth as usize, line) {
        Ok(said) => take_said(game, walk, value, depth, said),
        Err(unread) => Err(fault_of(unread)),
    }
}
