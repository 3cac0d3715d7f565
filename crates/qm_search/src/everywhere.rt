ghost use Rattle.std.specs.Prelude.{◌≡◌, ◌+◌, ℕ, ℤ, ◌≤ℤ◌, List, IfOk, IsTrue, drop};
ghost use Rattle.qm_math.specs.Fraction.{Fraction};
ghost use Rattle.qm_model.specs.declared.game.Problem.{Problem};
ghost use Rattle.qm_model.specs.declared.range.Range.{Range};
ghost use Rattle.qm_model.specs.declared.row.Row.{Row};
ghost use Rattle.qm_model.specs.declared.variable.Player.TheVariants.{All as Universal};
ghost use Rattle.qm_model.specs.declared.variable.Var.{Var};
ghost use Rattle.qm_model.specs.Boxes.{IsBox};
ghost use Rattle.qm_model.specs.Ranges.{range_at};
ghost use Rattle.qm_trees.specs.RefuteJudgement.{Head};
ghost use Rattle.qm_legal.specs.SearchSteps.{SetsNext};
ghost use Rattle.qm_search.specs.AnswerSteps.{IsAnswered, IsReply, IsRightAnswer, IsSecured};
ghost use Rattle.qm_search.specs.declared.window.Window.{Window};
ghost use Rattle.qm_search.specs.OutcomeSteps.{Secures};
ghost use Rattle.qm_search.specs.Windows.{IsProperWindow};

use crate::answer::{Answer, Reply};
use crate::answers::part_of;
use crate::outcome::Outcome;
use crate::reuse::secures;
use crate::window::Window;
use qm_frac::Frac;
use qm_game::{Bx, Place};
use qm_io::Memory;
use qm_model::Range;
use qm_trees::{Policy, Refute};
use sqlite_items::Items;
use std::alloc::Global;

/// Whether the policy secures the value whatever the next variable is set to, where there is a choice.
fn secures_everywhere(here: Place<'_>, bx: &mut Bx, value: &Frac, policy: &Policy) -> bool
    requires player { SetsNext Universal here.rest.now }
    requires bx { IsBox here.game.now.vars bx.old }
    ensures some { IsTrue result → (range_at bx.old here.entry.depth).low ≤ℤ (range_at bx.old here.entry.depth).high }
    ensures secures { IsTrue result → Secures here.entry.game.now (drop 1 here.entry.rest.now) (here.entry.depth + 1) bx.old value.now policy.now }
    ensures same { bx.new ≡ bx.old }
{
    let range = here.range(bx);
    if range.high <= range.low {
        return false;
    }
    secures(here.behind(), bx, value, policy)
}

/// The policy that answers each value of the range by this one.
fn answer_all(alloc: Global, range: Range, policy: Policy) -> Result<Policy, Memory>
    ensures { (P : Problem) (rest : List Var) (depth : ℕ) (bx : List Range) (v : Fraction) → SetsNext Universal rest → range ≡ range_at bx depth → (range_at bx depth).low ≤ℤ (range_at bx depth).high → Secures P (drop 1 rest) (depth + 1) bx v policy → IfOk result (Secures P rest depth bx v) }
{
    let mut parts = Items::new(alloc);
    parts.push(part_of(range, policy)).map_err(|_| Memory)?;
    Ok(Policy::Answer { parts })
}

/// The answer of a value that reaches this, or the visit's outcome where the policy reaches it whatever the value is.
fn reached(
    alloc: Global,
    here: Place<'_>,
    bx: &mut Bx,
    value: Frac,
    policy: Policy,
    refute: Refute,
) -> Result<Answer, Memory>
    requires player { SetsNext Universal here.rest.now }
    requires bx { IsBox here.game.now.vars bx.old }
    ensures answer { (cuts : List Row) (heads : List Head) (W : Window) (first at : ℤ) → IsAnswered here.entry.game.now cuts heads here.entry.rest.now here.entry.depth bx.old W at value policy refute → IfOk result (IsRightAnswer here.entry.game.now cuts heads here.entry.rest.now here.entry.depth bx.old W first at) }
    ensures same { bx.new ≡ bx.old }
{
    if secures_everywhere(here, bx, &value, &policy) {
        return Ok(Answer::Ended(Outcome::At {
            value,
            policy: answer_all(alloc, here.range(bx), policy)?,
            refute,
        }));
    }
    Ok(Answer::Kept(Reply::Reached {
        value,
        policy,
        refute,
    }))
}

/// The answer of a value behind which the cap is secured, or the visit's outcome where it is so whatever the value is.
fn secured(
    alloc: Global,
    here: Place<'_>,
    bx: &mut Bx,
    cap: &Option<Frac>,
    policy: Policy,
) -> Result<Answer, Memory>
    requires player { SetsNext Universal here.rest.now }
    requires bx { IsBox here.game.now.vars bx.old }
    ensures answer { (cuts : List Row) (heads : List Head) (W : Window) (first at : ℤ) → cap.now ≡ W.cap → IsProperWindow W → IsSecured here.entry.game.now here.entry.rest.now here.entry.depth bx.old W at policy → IfOk result (IsRightAnswer here.entry.game.now cuts heads here.entry.rest.now here.entry.depth bx.old W first at) }
    ensures same { bx.new ≡ bx.old }
{
    match cap {
        Some(value) if secures_everywhere(here, bx, value, &policy) => {
            Ok(Answer::Ended(Outcome::Over {
                value: *value,
                policy: answer_all(alloc, here.range(bx), policy)?,
            }))
        }
        _ => Ok(Answer::Kept(Reply::Secured(policy))),
    }
}

/// The answer of a value with this reply, or the visit's outcome where what the policy has for the value holds whatever it
/// is set to.
fn kept(
    alloc: Global,
    here: Place<'_>,
    bx: &mut Bx,
    cap: &Option<Frac>,
    reply: Reply,
) -> Result<Answer, Memory>
    requires player { SetsNext Universal here.rest.now }
    requires bx { IsBox here.game.now.vars bx.old }
    ensures answer { (cuts : List Row) (heads : List Head) (W : Window) (first at : ℤ) → cap.now ≡ W.cap → IsProperWindow W → IsReply here.entry.game.now cuts heads here.entry.rest.now here.entry.depth bx.old W first at reply → IfOk result (IsRightAnswer here.entry.game.now cuts heads here.entry.rest.now here.entry.depth bx.old W first at) }
    ensures same { bx.new ≡ bx.old }
{
    match reply {
        Reply::Reached {
            value,
            policy,
            refute,
        } => reached(alloc, here, bx, value, policy, refute),
        Reply::Secured(policy) => secured(alloc, here, bx, cap, policy),
        Reply::Illegal(tree) => Ok(Answer::Kept(Reply::Illegal(tree))),
    }
}

/// The answer, or the visit's outcome where what the policy has for this value of the next variable holds whatever it is
/// set to. The box stays as it was.
pub fn settled(
    alloc: Global,
    here: Place<'_>,
    bx: &mut Bx,
    window: &Window,
    answer: Answer,
) -> Result<Answer, Memory>
    requires player { SetsNext Universal here.rest.now }
    requires bx { IsBox here.game.now.vars bx.old }
    ensures answer { (cuts : List Row) (heads : List Head) (first at : ℤ) → IsProperWindow window.now → IsRightAnswer here.entry.game.now cuts heads here.entry.rest.now here.entry.depth bx.old window.now first at answer → IfOk result (IsRightAnswer here.entry.game.now cuts heads here.entry.rest.now here.entry.depth bx.old window.now first at) }
    ensures same { bx.new ≡ bx.old }
{
    match answer {
        Answer::Ended(outcome) => Ok(Answer::Ended(outcome)),
        Answer::Kept(reply) => kept(alloc, here, bx, &window.cap, reply),
    }
}
