ghost use Rattle.std.specs.Prelude.{◌≡◌, ◌+◌, ℕ, ℤ, pos, ◌≤ℤ◌, List, IfOk, drop, slice_set};
ghost use Rattle.qm_model.specs.declared.game.Problem.{Problem};
ghost use Rattle.qm_model.specs.declared.range.Range.{Range};
ghost use Rattle.qm_model.specs.declared.row.Row.{Row};
ghost use Rattle.qm_model.specs.declared.variable.Player.TheVariants.{All as Universal};
ghost use Rattle.qm_model.specs.declared.variable.Var.{Var};
ghost use Rattle.qm_model.specs.Goals.{Goal};
ghost use Rattle.qm_model.specs.Ranges.{single};
ghost use Rattle.qm_trees.specs.RefuteJudgement.{Head};
ghost use Rattle.qm_trees.specs.RefuteRight.{IsRightPick};
ghost use Rattle.qm_legal.specs.SearchSteps.{SetsNext};
ghost use Rattle.qm_search.specs.declared.window.Window.{Window};
ghost use Rattle.qm_search.specs.AnswerSteps.{IsRightAnswer};
ghost use Rattle.qm_search.specs.OutcomeSteps.{IsOutcome, Refutes};
ghost use Rattle.qm_search.specs.Windows.{IsProperWindow};

use crate::outcome::Outcome;
use qm_frac::Frac;
use qm_io::{List, Memory};
use qm_trees::{Empty, Policy, Refute};
use sqlite_items::Boxed;
use std::alloc::Global;

/// What a value of a universal variable comes to.
#[derive(Debug, Drop)]
pub enum Answer {
    /// The outcome of the whole visit: where the floor can't be reached against it, a refutation, which picks it.
    Ended(Outcome),
    /// It has its part in the policy.
    Kept(Reply),
}

/// What the policy has for a value of a universal variable.
#[derive(Debug, Drop)]
pub enum Reply {
    /// Why no universal play has it.
    Illegal(Empty),
    /// The policy below it, which secures the cap.
    Secured(Policy),
    /// What is reached, which lies in the window, the policy below it, and a refutation of anything better, which picks it.
    Reached {
        value: Frac,
        policy: Policy,
        refute: Refute,
    },
}

/// The universal player's pick of a value, with a completion.
fn pick(alloc: Global, value: i64, completion: List<i64>, below: Refute) -> Result<Refute, Memory>
    ensures { (P : Problem) (cuts : List Row) (heads : List Head) (rest : List Var) (depth : ℕ) (bx : List Range) (G : Goal) → SetsNext Universal rest → IsRightPick P (drop 1 rest) depth bx value completion → Refutes P cuts heads (drop 1 rest) (depth + 1) (slice_set bx depth (single value)) G below → IfOk result (Refutes P cuts heads rest depth bx G) }
{
    Ok(Refute::Pick {
        value,
        completion,
        below: Boxed::new(alloc, below).map_err(|_| Memory)?,
    })
}

/// The answer of a value that the completion makes legal, by the outcome behind it.
pub fn legal_answer(
    alloc: Global,
    at: i64,
    completion: List<i64>,
    outcome: Outcome,
) -> Result<Answer, Memory>
    ensures { (P : Problem) (cuts : List Row) (heads : List Head) (rest : List Var) (depth : ℕ) (bx : List Range) (W : Window) (first : ℤ) → IsProperWindow W → SetsNext Universal rest → IsRightPick P (drop 1 rest) depth bx at completion → IsOutcome P cuts heads (drop 1 rest) (depth + 1) (slice_set bx depth (single at)) W outcome → IfOk result (IsRightAnswer P cuts heads rest depth bx W first at) }
{
    match outcome {
        Outcome::Under(refute) => Ok(Answer::Ended(Outcome::Under(pick(
            alloc, at, completion, refute,
        )?))),
        Outcome::At {
            value,
            policy,
            refute,
        } => Ok(Answer::Kept(Reply::Reached {
            value,
            policy,
            refute: pick(alloc, at, completion, refute)?,
        })),
        Outcome::Over { value: _, policy } => Ok(Answer::Kept(Reply::Secured(policy))),
    }
}
