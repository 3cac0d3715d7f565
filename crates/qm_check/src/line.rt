ghost use Rattle.std.specs.Prelude.{◌≡◌, ◌==◌, ◌<◌, ◌-◌, ◌^◌, ◌+ℤ◌, ◌++◌, ◌∷◌, Ok, OnOk, length, pos};
ghost use Rattle.qm_model.specs.declared.game.Problem.{Problem};
ghost use Rattle.qm_trees.specs.declared.rule.Rule.TheVariants as broken;
ghost use Rattle.qm_trees.specs.Ranges.{follows_on};
ghost use Rattle.qm_trees.specs.Verdicts.{line};
ghost use Rattle.qm_certread.specs.Forms.{is_line};
ghost use Rattle.qm_certread.specs.Pieces.{words_of};
ghost use Rattle.qm_certread.specs.Tasks.{Played, Ranges, Said, below, ranges};
ghost use Rattle.qm_check.specs.Judging.{IsJudged, line_verdict, next_tasks, next_verdict, tasks_behind};
ghost use Rattle.qm_check.specs.Walks.{IsNext, IsOpen, IsWalk, covering_of, due_tasks, plain_line, tasks_of, tree_task};

use crate::due::{Due, Open, Plain, Tree};
use crate::empties::take_empty;
use crate::fault::{Fault, fault_of, rule_of};
use crate::going::{next_due, take_range};
use crate::parts::follows_on;
use crate::play::is_play;
use crate::policies::{take_below, take_policy};
use crate::refutes::take_refute;
use crate::walk::Walk;
use qm_certread::{
    Unread, is_alone, is_pair, range_said, universal_count, values_said, whole_vars,
};
use qm_frac::{Frac, Leaves};
use qm_io::List;
use qm_model::{Game, Range};
use qm_trees::Rule;
use std::alloc::Global;

/// Whether the line is this one.
fn is_plain(plain: Plain, line: &[u8]) -> bool
    ensures { result ≡ is_line (plain_line plain) (words_of line.now) }
{
    match plain {
        Plain::Version => is_pair(b"certificate", b"1", line),
        Plain::Policy => is_alone(b"policy", line),
        Plain::Refute => is_alone(b"refute", line),
        Plain::Illegal => is_alone(b"illegal", line),
        Plain::End => is_alone(b"end", line),
    }
}

/// Takes a line that says nothing but its kind.
fn take_plain(plain: Plain, line: &[u8]) -> Result<(), Fault>
    ensures { (P : Problem) → IsJudged (line_verdict P (Said (plain_line plain)) line.now) result }
{
    if is_plain(plain, line) {
        Ok(())
    } else {
        Err(Fault::Broken(Rule::Text))
    }
}

/// Takes the values of a universal play.
fn take_play(alloc: Global, game: &Game, line: &[u8]) -> Result<(), Fault>
    ensures { IsJudged (line_verdict game.now Played line.now) result }
{
    let count = universal_count(whole_vars(game.problem()));
    let values: Result<List<i64>, Unread> = values_said(alloc, b"legal", count, line);
    match values {
        Ok(values) => match is_play(alloc, game, values.as_slice()) {
            Ok(true) => Ok(()),
            Ok(false) => Err(Fault::Broken(Rule::Legal)),
            Err(_) => Err(Fault::Memory),
        },
        Err(unread) => Err(fault_of(unread)),
    }
}

/// Takes a range of the node.
fn take_read_range(walk: &mut Walk, node: Open, range: Range) -> Result<(), Fault>
    requires node { IsOpen node walk.old.bx }
    requires few { length walk.old.bx < 2 ^ 29 }
    ensures judged { IsJudged (line broken.Cover (Ok (follows_on node.next node.covered.high (node.left - 1 == 0) range))) result }
    ensures due { OnOk result (tasks_of walk.new ≡ below (covering_of node walk.old.bx) range ∷ ranges (covering_of node walk.old.bx) (node.left - 1) (range.high +ℤ pos 1) ++ tasks_of walk.old) }
    ensures stays { OnOk result ((P : Problem) → IsWalk P walk.old → IsWalk P walk.new) }
{
    if !follows_on(node.next, node.covered.high, node.left - 1 == 0, range) {
        return Err(Fault::Broken(Rule::Cover));
    }
    match take_range(walk, node, range) {
        Ok(()) => Ok(()),
        Err(_) => Err(Fault::Memory),
    }
}

/// Takes the line of the next range of the node.
fn take_part(game: &Game, walk: &mut Walk, node: Open, line: &[u8]) -> Result<(), Fault>
    requires walk { IsWalk game.now walk.old }
    requires node { IsOpen node walk.old.bx }
    ensures judged { IsJudged (line_verdict game.now (Ranges (covering_of node walk.old.bx) (node.left - 1) node.next) line.now) result }
    ensures due { OnOk result (tasks_of walk.new ≡ tasks_behind game.now (Ranges (covering_of node walk.old.bx) (node.left - 1) node.next) line.now (tasks_of walk.old)) }
    ensures stays { OnOk result (IsWalk game.now walk.new) }
{
    // that there are few variables
    let _problem = game.problem();
    match range_said(line) {
        Ok(range) => take_read_range(walk, node, range),
        Err(misread) => Err(Fault::Broken(rule_of(misread))),
    }
}

/// Takes a line of a tree.
fn take_tree(
    alloc: Global,
    game: &Game,
    walk: &mut Walk,
    sums: &mut [Result<Frac, Leaves>],
    tree: Tree,
    line: &[u8],
) -> Result<(), Fault>
    requires walk { IsWalk game.now walk.old }
    requires sums { length sums.old ≡ length game.now.vars }
    ensures judged { IsJudged (line_verdict game.now (tree_task tree walk.old.bx) line.now) result }
    ensures due { OnOk result (tasks_of walk.new ≡ tasks_behind game.now (tree_task tree walk.old.bx) line.now (tasks_of walk.old)) }
    ensures stays { OnOk result (IsWalk game.now walk.new) }
{
    match tree {
        Tree::Policy { value, depth } => take_policy(alloc, game, walk, value, depth, line),
        Tree::Below { value, depth } => take_below(alloc, game, walk, value, depth, line),
        Tree::Empty { position } => take_empty(alloc, game, walk, sums, position, line),
        Tree::Refute { goal, depth } => take_refute(alloc, game, walk, sums, goal, depth, line),
    }
}

/// Takes a line where this is due.
fn take_due(
    alloc: Global,
    game: &Game,
    walk: &mut Walk,
    sums: &mut [Result<Frac, Leaves>],
    due: Due,
    line: &[u8],
) -> Result<(), Fault>
    requires walk { IsWalk game.now walk.old }
    requires next { IsNext due walk.old.bx }
    requires sums { length sums.old ≡ length game.now.vars }
    ensures judged { IsJudged (next_verdict game.now (due_tasks due walk.old.bx ++ tasks_of walk.old) line.now) result }
    ensures due { OnOk result (tasks_of walk.new ≡ next_tasks game.now (due_tasks due walk.old.bx ++ tasks_of walk.old) line.now) }
    ensures stays { OnOk result (IsWalk game.now walk.new) }
{
    match due {
        Due::Line(plain) => take_plain(plain, line),
        Due::Played => take_play(alloc, game, line),
        Due::Tree(tree) => take_tree(alloc, game, walk, sums, tree, line),
        Due::Open(node) => take_part(game, walk, node, line),
    }
}

/// Takes the next line: the tasks behind it are due. Each node that is read gives its range back before. `Broken` and
/// `Leaves` are its fault.
pub(crate) fn take_line(
    alloc: Global,
    game: &Game,
    walk: &mut Walk,
    sums: &mut [Result<Frac, Leaves>],
    line: &[u8],
) -> Result<(), Fault>
    requires walk { IsWalk game.now walk.old }
    requires sums { length sums.old ≡ length game.now.vars }
    ensures judged { IsJudged (next_verdict game.now (tasks_of walk.old) line.now) result }
    ensures due { OnOk result (tasks_of walk.new ≡ next_tasks game.now (tasks_of walk.old) line.now) }
    ensures stays { OnOk result (IsWalk game.now walk.new) }
{
    match next_due(game.problem(), walk) {
        Some(due) => take_due(alloc, game, walk, sums, due, line),
        None => Err(Fault::Broken(Rule::Text)),
    }
}
