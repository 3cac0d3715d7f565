ghost use Rattle.std.specs.Prelude.{◌≡◌, ◌==◌, ◌<◌, ◌^◌, ◌≤ℤ◌, ◌+ℤ◌, ◌-◌, ◌++◌, ◌∷◌, [], IfNone, IfSome, OnOk, length, pos, slice_set, true, nat_lt};
ghost use Rattle.qm_model.specs.declared.game.Problem.{Problem};
ghost use Rattle.qm_model.specs.declared.range.Range.{Range};
ghost use Rattle.qm_model.specs.Boxes.{IsInside};
ghost use Rattle.qm_model.specs.Ranges.{is_in, range_at, single};
ghost use Rattle.qm_trees.specs.Ranges.{follows_on};
ghost use Rattle.qm_certread.specs.Tasks.{below, parts, ranges, tree_of};
ghost use Rattle.qm_check.specs.Walks.{IsNext, IsOpen, IsPlaced, IsWalk, covering_of, due_tasks, given_back, has_task, kind_of, tasks_of, tree_task};

use crate::due::{Due, Kind, Open, Tree};
use crate::parts::behind;
use crate::walk::Walk;
use qm_io::{List, Memory};
use qm_model::{Problem, Range, range_in, single, start};

/// Gives a node's range back to the box.
fn give_back(walk: &mut Walk, due: &Due)
    requires { IsPlaced due.now walk.old.bx }
    ensures due { walk.new.due ≡ walk.old.due }
    ensures bx { walk.new.bx ≡ given_back due.now walk.old.bx }
{
    if let Due::Open(node) = due {
        walk.bx.set(node.var as usize, node.covered);
    }
}

/// Whether something is due by it.
fn is_due(due: &Due) -> bool
    ensures { result ≡ has_task due.now }
{
    match due {
        Due::Open(node) => node.left > 0,
        _ => true,
    }
}

/// Takes what is due next, once the nodes that are read have given the box back. `None` where nothing is due.
pub(crate) fn next_due(_problem: &Problem, walk: &mut Walk) -> Option<Due>
    requires { IsWalk _problem.now walk.old }
    ensures none { IfNone result (tasks_of walk.old ≡ []) }
    ensures some { IfSome result (λ due. tasks_of walk.old ≡ due_tasks due walk.new.bx ++ tasks_of walk.new) }
    ensures next { IfSome result (λ due. IsNext due walk.new.bx) }
    ensures stays { IfSome result (λ due. IsWalk _problem.now walk.new) }
{
    while let Some(due) = walk.due.pop() {
        give_back(walk, &due);
        if is_due(&due) {
            return Some(due);
        }
    }
    None
}

/// This is due next.
pub(crate) fn push(dues: &mut List<Due>, due: Due) -> Result<(), Memory>
    ensures { OnOk result (dues.new ≡ dues.old ++ due ∷ []) }
{
    // one by one, so that the prover meets what each holds
    match due {
        Due::Open(node) => dues.push(Due::Open(node)),
        Due::Tree(tree) => dues.push(Due::Tree(tree)),
        other => dues.push(other),
    }
}

/// The tree is due over the box.
pub(crate) fn push_tree(walk: &mut Walk, tree: Tree) -> Result<(), Memory>
    ensures due { OnOk result (tasks_of walk.new ≡ tree_task tree walk.old.bx ∷ tasks_of walk.old) }
    ensures stays { OnOk result ((P : Problem) → IsWalk P walk.old → IsWalk P walk.new) }
{
    push(&mut walk.due, Due::Tree(tree))
}

/// Opens a node at the variable, and sets that to the range: the tree below it is due, and then what is left of the node.
fn enter(walk: &mut Walk, node: Open, range: Range, tree: Tree) -> Result<(), Memory>
    requires inside { node.var < length walk.old.bx }
    requires covered { node.covered ≡ range_at walk.old.bx node.var }
    requires next { node.covered.low ≤ℤ node.next }
    requires range { IsInside range node.covered }
    ensures due { OnOk result (tasks_of walk.new ≡ tree_task tree (slice_set walk.old.bx node.var range) ∷ ranges (covering_of node walk.old.bx) node.left node.next ++ tasks_of walk.old) }
    ensures stays { OnOk result ((P : Problem) → IsWalk P walk.old → IsWalk P walk.new) }
{
    walk.bx.set(node.var as usize, range);
    walk.due.push(Due::Open(node))?;
    walk.due.push(Due::Tree(tree))
}

/// Sets the variable to the value: the tree is due over the box.
pub(crate) fn set(walk: &mut Walk, var: u32, value: i64, tree: Tree) -> Result<(), Memory>
    requires inside { var < length walk.old.bx }
    requires value { is_in (range_at walk.old.bx var) value ≡ true }
    ensures due { OnOk result (tasks_of walk.new ≡ tree_task tree (slice_set walk.old.bx var (single value)) ∷ tasks_of walk.old) }
    ensures stays { OnOk result ((P : Problem) → IsWalk P walk.old → IsWalk P walk.new) }
{
    let covered = range_in(walk.bx.as_slice(), var as usize);
    let node = Open {
        kind: Kind::EmptyTrees,
        var,
        covered,
        left: 0,
        next: start(covered),
    };
    enter(walk, node, single(value), tree)
}

/// So many ranges are due that cover the variable's range, and a tree below each.
pub(crate) fn part(walk: &mut Walk, kind: Kind, var: u32, count: u32) -> Result<(), Memory>
    requires inside { var < length walk.old.bx }
    ensures due { OnOk result (tasks_of walk.new ≡ parts (kind_of kind) var walk.old.bx count ++ tasks_of walk.old) }
    ensures stays { OnOk result ((P : Problem) → IsWalk P walk.old → IsWalk P walk.new) }
{
    let covered = range_in(walk.bx.as_slice(), var as usize);
    let node = Open {
        kind,
        var,
        covered,
        left: count,
        next: start(covered),
    };
    push(&mut walk.due, Due::Open(node))
}

/// The tree that stands below a range of the node.
fn tree_below(kind: Kind, depth: u32) -> Tree
    ensures { (bx : List Range) → tree_task result bx ≡ tree_of (kind_of kind) depth bx }
{
    match kind {
        Kind::Policies(value) => Tree::Below { value, depth },
        Kind::EmptyTrees => Tree::Empty { position: depth },
        Kind::Refutations(goal) => Tree::Refute { goal, depth },
    }
}

/// Takes the next range of the node: the tree below it is due, and then the other ranges.
pub(crate) fn take_range(walk: &mut Walk, node: Open, range: Range) -> Result<(), Memory>
    requires node { IsOpen node walk.old.bx }
    requires few { length walk.old.bx < 2 ^ 29 }
    requires range { follows_on node.next node.covered.high (node.left - 1 == 0) range ≡ true }
    ensures due { OnOk result (tasks_of walk.new ≡ below (covering_of node walk.old.bx) range ∷ ranges (covering_of node walk.old.bx) (node.left - 1) (range.high +ℤ pos 1) ++ tasks_of walk.old) }
    ensures stays { OnOk result ((P : Problem) → IsWalk P walk.old → IsWalk P walk.new) }
{
    let left = Open {
        left: node.left - 1,
        next: behind(range),
        ..node
    };
    enter(walk, left, range, tree_below(node.kind, node.var + 1))
}
