ghost use Rattle.std.specs.Prelude.{◌≡◌, ◌<◌, ◌≤◌, ◌+◌, ◌^◌, ◌++◌, ◌∷◌, [], OnOk, Ok, length, slice_set};
ghost use Rattle.qm_model.specs.declared.game.Problem.{Problem};
ghost use Rattle.qm_model.specs.Plays.{whole_vars};
ghost use Rattle.qm_model.specs.Ranges.{single};
ghost use Rattle.qm_game.specs.Goals.{goal_of};
ghost use Rattle.qm_trees.specs.declared.rule.Rule.TheVariants as broken;
ghost use Rattle.qm_trees.specs.Verdicts.{line};
ghost use Rattle.qm_certfile.specs.Styles.{first_style};
ghost use Rattle.qm_certread.specs.SaidSteps.{refute_node};
ghost use Rattle.qm_certread.specs.Tasks.{Refutations, Refute, follow, parts};
ghost use Rattle.qm_certread.specs.FirstFault.{can_pick, may_cover, refute_rule};
ghost use Rattle.qm_check.specs.Judging.{IsJudged, line_verdict, tasks_behind};
ghost use Rattle.qm_check.specs.TreeSaid.{CanSayRefute};
ghost use Rattle.qm_check.specs.Walks.{IsWalk, tasks_of};

use crate::closing::closes_here;
use crate::due::{Kind, Tree};
use crate::fault::{Fault, fault_of, pass};
use crate::going::{part, set};
use crate::parts::over_count_is_right;
use crate::picked::can_pick;
use crate::walk::Walk;
use qm_certread::{RefuteSaid, refute_said, whole_vars};
use qm_frac::{Frac, Leaves};
use qm_game::Goal;
use qm_model::{Game, Problem, Range, range_in};
use qm_trees::Rule;
use std::alloc::Global;

/// Whether so many ranges may cover that of the next variable.
fn may_cover(problem: &Problem, depth: usize, bx: &[Range], count: u32) -> bool
    requires wholes { problem.now.wholes ≤ length problem.now.vars }
    requires bx { length bx.now ≡ length problem.now.vars }
    ensures { result ≡ may_cover problem.now depth bx.now count }
{
    match whole_vars(problem).get(depth) {
        Some(var) => over_count_is_right(var, bx[depth], count),
        None => false,
    }
}

/// Takes the count of the ranges for the next variable.
fn over(game: &Game, walk: &mut Walk, goal: Goal, depth: u32, count: u32) -> Result<(), Fault>
    requires walk { IsWalk game.now walk.old }
    requires inside { depth < length walk.old.bx }
    ensures judged { IsJudged (line broken.Cover (Ok (may_cover game.now depth walk.old.bx count))) result }
    ensures due { OnOk result (tasks_of walk.new ≡ parts (Refutations (goal_of goal)) depth walk.old.bx count ++ tasks_of walk.old) }
    ensures stays { OnOk result ((P : Problem) → IsWalk P walk.old → IsWalk P walk.new) }
{
    let problem = game.problem();
    if !may_cover(problem, depth as usize, walk.bx.as_slice(), count) {
        return Err(Fault::Broken(Rule::Cover));
    }
    match part(walk, Kind::Refutations(goal), depth, count) {
        Ok(()) => Ok(()),
        Err(_) => Err(Fault::Memory),
    }
}

/// Takes the pick of a value, with values for the later universal variables.
fn pick(
    alloc: Global,
    game: &Game,
    walk: &mut Walk,
    goal: Goal,
    depth: u32,
    value: i64,
    completion: &[i64],
) -> Result<(), Fault>
    requires walk { IsWalk game.now walk.old }
    requires inside { depth < length (whole_vars game.now) }
    ensures judged { IsJudged (line broken.Pick (Ok (can_pick game.now depth walk.old.bx value completion.now))) result }
    ensures due { OnOk result (tasks_of walk.new ≡ Refute (goal_of goal) (depth + 1) (slice_set walk.old.bx depth (single value)) ∷ tasks_of walk.old) }
    ensures stays { OnOk result (IsWalk game.now walk.new) }
{
    // that there are few variables
    let _problem = game.problem();
    let picks = can_pick(
        alloc,
        game,
        depth as usize,
        walk.bx.as_slice(),
        value,
        completion,
    );
    match picks {
        Ok(true) => {}
        Ok(false) => return Err(Fault::Broken(Rule::Pick)),
        Err(_) => return Err(Fault::Memory),
    }
    let tree = Tree::Refute {
        goal,
        depth: depth + 1,
    };
    match set(walk, depth, value, tree) {
        Ok(()) => Ok(()),
        Err(_) => Err(Fault::Memory),
    }
}

/// Takes what a line of a refutation says.
fn take_said(
    alloc: Global,
    game: &Game,
    walk: &mut Walk,
    sums: &mut [Result<Frac, Leaves>],
    goal: Goal,
    depth: u32,
    said: RefuteSaid,
) -> Result<(), Fault>
    requires walk { IsWalk game.now walk.old }
    requires sums { length sums.old ≡ length game.now.vars }
    requires fits { CanSayRefute game.now depth said }
    ensures judged { IsJudged (refute_rule game.now [] (goal_of goal) depth walk.old.bx (refute_node said)) result }
    ensures due { OnOk result (tasks_of walk.new ≡ follow first_style game.now (Refute (goal_of goal) depth walk.old.bx) (refute_node said) ++ tasks_of walk.old) }
    ensures stays { OnOk result (IsWalk game.now walk.new) }
{
    // that there are few variables
    let _problem = game.problem();
    match said {
        RefuteSaid::Over(count) => over(game, walk, goal, depth, count),
        RefuteSaid::Pick { value, completion } => {
            pick(alloc, game, walk, goal, depth, value, completion.as_slice())
        }
        RefuteSaid::Close(combo) => pass(
            Rule::Close,
            closes_here(game, &[], walk.bx.as_slice(), &goal, &combo, sums),
        ),
    }
}

/// Takes a line of a refutation where so many variables are set.
pub(crate) fn take_refute(
    alloc: Global,
    game: &Game,
    walk: &mut Walk,
    sums: &mut [Result<Frac, Leaves>],
    goal: Goal,
    depth: u32,
    line: &[u8],
) -> Result<(), Fault>
    requires walk { IsWalk game.now walk.old }
    requires sums { length sums.old ≡ length game.now.vars }
    ensures judged { IsJudged (line_verdict game.now (Refute (goal_of goal) depth walk.old.bx) line.now) result }
    ensures due { OnOk result (tasks_of walk.new ≡ tasks_behind game.now (Refute (goal_of goal) depth walk.old.bx) line.now (tasks_of walk.old)) }
    ensures stays { OnOk result (IsWalk game.now walk.new) }
{
    let problem = game.problem();
    match refute_said(alloc, problem, depth as usize, line) {
        Ok(said) => take_said(alloc, game, walk, sums, goal, depth, said),
        Err(unread) => Err(fault_of(unread)),
    }
}
