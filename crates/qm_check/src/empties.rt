ghost use Rattle.std.specs.Prelude.{◌≡◌, ◌<◌, ◌++◌, OnOk, Ok, length};
ghost use Rattle.qm_model.specs.declared.game.Problem.{Problem};
ghost use Rattle.qm_model.specs.Ranges.{range_at};
ghost use Rattle.qm_trees.specs.declared.rule.Rule.TheVariants as broken;
ghost use Rattle.qm_trees.specs.Ranges.{counts_right};
ghost use Rattle.qm_trees.specs.Verdicts.{line};
ghost use Rattle.qm_certfile.specs.Styles.{first_style};
ghost use Rattle.qm_certread.specs.SaidSteps.{empty_node};
ghost use Rattle.qm_certread.specs.Tasks.{Empty, EmptyTrees, follow, parts};
ghost use Rattle.qm_certread.specs.FirstFault.{empty_rule};
ghost use Rattle.qm_check.specs.Judging.{IsJudged, line_verdict, tasks_behind};
ghost use Rattle.qm_check.specs.TreeSaid.{CanSayEmpty};
ghost use Rattle.qm_check.specs.Walks.{IsWalk, tasks_of};

use crate::closing::closes_empty;
use crate::due::Kind;
use crate::fault::{Fault, fault_of, pass};
use crate::going::part;
use crate::parts::count_is_right;
use crate::walk::Walk;
use qm_certread::{EmptySaid, empty_said};
use qm_frac::{Frac, Leaves};
use qm_model::{Game, range_in};
use qm_trees::Rule;
use std::alloc::Global;

/// Takes the count of the ranges of a split.
fn split(walk: &mut Walk, var: u32, count: u32) -> Result<(), Fault>
    requires { var < length walk.old.bx }
    ensures judged { IsJudged (line broken.Cover (Ok (counts_right (range_at walk.old.bx var) count))) result }
    ensures due { OnOk result (tasks_of walk.new ≡ parts EmptyTrees var walk.old.bx count ++ tasks_of walk.old) }
    ensures stays { OnOk result ((P : Problem) → IsWalk P walk.old → IsWalk P walk.new) }
{
    if !count_is_right(range_in(walk.bx.as_slice(), var as usize), count) {
        return Err(Fault::Broken(Rule::Cover));
    }
    match part(walk, Kind::EmptyTrees, var, count) {
        Ok(()) => Ok(()),
        Err(_) => Err(Fault::Memory),
    }
}

/// Takes what a line of an empty tree says.
fn take_said(
    game: &Game,
    walk: &mut Walk,
    sums: &mut [Result<Frac, Leaves>],
    position: u32,
    said: EmptySaid,
) -> Result<(), Fault>
    requires walk { IsWalk game.now walk.old }
    requires sums { length sums.old ≡ length game.now.vars }
    requires fits { CanSayEmpty game.now said }
    ensures judged { IsJudged (empty_rule game.now walk.old.bx (empty_node said)) result }
    ensures due { OnOk result (tasks_of walk.new ≡ follow first_style game.now (Empty position walk.old.bx) (empty_node said) ++ tasks_of walk.old) }
    ensures stays { OnOk result (IsWalk game.now walk.new) }
{
    // that there are few variables
    let _problem = game.problem();
    match said {
        EmptySaid::Split { var, count } => split(walk, var, count),
        EmptySaid::Close(combo) => pass(
            Rule::Close,
            closes_empty(game, walk.bx.as_slice(), &combo, sums),
        ),
    }
}

/// Takes a line of an empty tree that may split variables from this position on.
pub(crate) fn take_empty(
    alloc: Global,
    game: &Game,
    walk: &mut Walk,
    sums: &mut [Result<Frac, Leaves>],
    position: u32,
    line: &[u8],
) -> Result<(), Fault>
    requires walk { IsWalk game.now walk.old }
    requires sums { length sums.old ≡ length game.now.vars }
    ensures judged { IsJudged (line_verdict game.now (Empty position walk.old.bx) line.now) result }
    ensures due { OnOk result (tasks_of walk.new ≡ tasks_behind game.now (Empty position walk.old.bx) line.now (tasks_of walk.old)) }
    ensures stays { OnOk result (IsWalk game.now walk.new) }
{
    let problem = game.problem();
    match empty_said(alloc, problem, position as usize, line) {
        Ok(said) => take_said(game, walk, sums, position, said),
        Err(unread) => Err(fault_of(unread)),
    }
}
