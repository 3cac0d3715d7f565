ghost use Rattle.std.specs.Prelude.{◌≡◌, ◌++◌, ◌∷◌, [], IfOk, OnOk};
ghost use Rattle.qm_model.specs.Boxes.{whole_box_of};
ghost use Rattle.qm_certfile.specs.Styles.{first_style};
ghost use Rattle.qm_certread.specs.SaidSteps.{claim_node};
ghost use Rattle.qm_certread.specs.Tasks.{Claimed, follow};
ghost use Rattle.qm_check.specs.declared.due.Due.TheVariants as due;
ghost use Rattle.qm_check.specs.declared.due.Plain.TheVariants as plain;
ghost use Rattle.qm_check.specs.declared.due.Tree.TheVariants as tree;
ghost use Rattle.qm_check.specs.Walks.{IsWalk, claimed_due, tasks_of};

use crate::due::{Due, Plain, Tree};
use crate::going::push;
use crate::walk::Walk;
use qm_certfile::claimed;
use qm_certread::Claim;
use qm_frac::Frac;
use qm_game::{Bx, Goal};
use qm_io::{List, Memory};
use qm_model::{Game, Problem, Range};
use std::alloc::Global;

/// The variables' own bounds.
fn whole_box(alloc: Global, problem: &Problem) -> Result<Bx, Memory>
    ensures { IfOk result (λ bx. bx ≡ whole_box_of problem.now.vars) }
{
    let mut bx = List::new(alloc);
    for var in problem.vars.as_slice() {
        bx.push(Range {
            low: var.low,
            high: var.high,
        })?;
    }
    Ok(bx)
}

/// A refutation of the goal for the whole game, and the end.
fn push_refutation(dues: &mut List<Due>, goal: Goal) -> Result<(), Memory>
    ensures { OnOk result (dues.new ≡ dues.old ++ due.Line plain.End ∷ due.Tree (tree.Refute goal 0) ∷ due.Line plain.Refute ∷ []) }
{
    push(dues, Due::Line(Plain::End))?;
    push(dues, Due::Tree(Tree::Refute { goal, depth: 0 }))?;
    push(dues, Due::Line(Plain::Refute))
}

/// A policy at the value for the whole game, before what is due.
fn push_policy(dues: &mut List<Due>, value: Frac) -> Result<(), Memory>
    ensures { OnOk result (dues.new ≡ dues.old ++ due.Tree (tree.Policy value 0) ∷ due.Line plain.Policy ∷ []) }
{
    push(dues, Due::Tree(Tree::Policy { value, depth: 0 }))?;
    push(dues, Due::Line(Plain::Policy))
}

/// The version and a universal play, before what is due.
fn push_beginning(dues: &mut List<Due>) -> Result<(), Memory>
    ensures { OnOk result (dues.new ≡ dues.old ++ due.Played ∷ due.Line plain.Version ∷ []) }
{
    push(dues, Due::Played)?;
    push(dues, Due::Line(Plain::Version))
}

/// That there is no universal play.
fn push_no_play(dues: &mut List<Due>) -> Result<(), Memory>
    ensures { OnOk result (dues.new ≡ dues.old ++ due.Line plain.End ∷ due.Tree (tree.Empty 0) ∷ due.Line plain.Illegal ∷ due.Line plain.Version ∷ []) }
{
    push(dues, Due::Line(Plain::End))?;
    push(dues, Due::Tree(Tree::Empty { position: 0 }))?;
    push(dues, Due::Line(Plain::Illegal))?;
    push(dues, Due::Line(Plain::Version))
}

/// What is due behind the first line.
fn claimed_due(alloc: Global, problem: &Problem, claim: &Claim) -> Result<List<Due>, Memory>
    ensures { IfOk result (λ dues. dues ≡ claimed_due problem.now claim.now) }
{
    let mut dues = List::new(alloc);
    match claim {
        Claim::Optimal(shown) => {
            let value = claimed(problem.sense, *shown);
            push_refutation(&mut dues, Goal::Above(value))?;
            push_policy(&mut dues, value)?;
            push_beginning(&mut dues)?;
        }
        Claim::Infeasible => {
            push_refutation(&mut dues, Goal::Any)?;
            push_beginning(&mut dues)?;
        }
        Claim::NoPlay => push_no_play(&mut dues)?,
    }
    Ok(dues)
}

/// The walk behind the first line, which says this.
pub(crate) fn begin(alloc: Global, game: &Game, claim: &Claim) -> Result<Walk, Memory>
    ensures due { IfOk result (λ walk. tasks_of walk ≡ follow first_style game.now Claimed (claim_node claim.now)) }
    ensures walk { IfOk result (IsWalk game.now) }
{
    let problem = game.problem();
    let due = claimed_due(alloc, problem, claim)?;
    let bx = whole_box(alloc, problem)?;
    Ok(Walk { due, bx })
}
