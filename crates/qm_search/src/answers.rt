ghost use Rattle.std.specs.Prelude.{◌≡◌, ◌+◌, ℕ, ℤ, pos, ◌+ℤ◌, ◌≤ℤ◌, List, IfOk, IsSome};
ghost use Rattle.qm_model.specs.declared.game.Problem.{Problem};
ghost use Rattle.qm_model.specs.declared.range.Range.{Range};
ghost use Rattle.qm_model.specs.declared.row.Row.{Row};
ghost use Rattle.qm_model.specs.declared.variable.Player.TheVariants.{All as Universal};
ghost use Rattle.qm_model.specs.declared.variable.Var.{Var};
ghost use Rattle.qm_model.specs.Ranges.{range_at, single};
ghost use Rattle.qm_trees.specs.declared.policy.Below.TheOpen as node;
ghost use Rattle.qm_trees.specs.PolicyJudgement.{below_of, range_of};
ghost use Rattle.qm_trees.specs.RefuteJudgement.{Head};
ghost use Rattle.qm_legal.specs.SearchSteps.{SetsNext};
ghost use Rattle.qm_search.specs.declared.answer.Reply.TheVariants.{Illegal, Reached, Secured};
ghost use Rattle.qm_search.specs.declared.window.Window.{Window};
ghost use Rattle.qm_search.specs.AnswerSteps.{at_worst, AreAnswers, IsOver, IsReply, answer_window, cap_below};
ghost use Rattle.qm_search.specs.OutcomeSteps.{IsOutcome};
ghost use Rattle.qm_search.specs.PartSteps.{IsPast};
ghost use Rattle.qm_search.specs.Windows.{IsProperWindow};

use crate::answer::Reply;
use crate::outcome::Outcome;
use crate::window::Window;
use qm_frac::Frac;
use qm_io::Memory;
use qm_model::{Range, single};
use qm_trees::{Below, Empty, Policy, PolicyPart, Refute};
use sqlite_items::Items;
use std::alloc::Global;

/// The worst value so far, with a refutation of anything better, which picks what leads to it.
#[derive(Debug, Drop)]
pub struct Worst {
    value: Frac,
    refute: Refute,
}

/// The values of a universal variable so far: the worst that one of them leads to, where one leads below the cap, and what
/// the policy has for each.
#[derive(Debug, Drop)]
pub struct Answers {
    worst: Option<Worst>,
    parts: Items<PolicyPart>,
}

/// What several values come to.
#[derive(Debug, Drop)]
pub enum Answered {
    /// What the visit comes to: the others need no answer.
    Enough(Outcome),
    /// The answers to them.
    More(Answers),
}

impl Answers {
    /// No value yet.
    pub fn new(alloc: Global) -> Answers
        ensures { (P : Problem) (cuts : List Row) (heads : List Head) (rest : List Var) (depth : ℕ) (bx : List Range) (W : Window) (first low : ℤ) → AreAnswers P cuts heads rest depth bx W first low low result }
    {
        Answers {
            worst: None,
            parts: Items::new(alloc),
        }
    }

    /// The window of the next value, which is to lead to less than the worst so far.
    pub fn window(&self, window: &Window) -> Window
        ensures { result ≡ answer_window window.now self.now.worst }
    {
        match &self.worst {
            None => *window,
            Some(worst) => Window {
                floor: window.floor,
                cap: Some(worst.value),
            },
        }
    }

    /// The values with one more that no universal play has.
    fn illegal(self, at: i64, tree: Empty) -> Result<Answers, Memory>
        ensures { (P : Problem) (cuts : List Row) (heads : List Head) (rest : List Var) (depth : ℕ) (bx : List Range) (W : Window) (first low : ℤ) → AreAnswers P cuts heads rest depth bx W first low at self → IsReply P cuts heads rest depth bx (answer_window W self.worst) first at (Illegal tree) → IfOk result (AreAnswers P cuts heads rest depth bx W first low (at +ℤ pos 1)) }
    {
        let Answers { worst, mut parts } = self;
        parts.push(illegal_part(at, tree)).map_err(|_| Memory)?;
        Ok(Answers { worst, parts })
    }

    /// The values with one more behind which the cap is secured.
    fn secured(self, at: i64, policy: Policy) -> Result<Answers, Memory>
        ensures { (P : Problem) (cuts : List Row) (heads : List Head) (rest : List Var) (depth : ℕ) (bx : List Range) (W : Window) (first low : ℤ) → AreAnswers P cuts heads rest depth bx W first low at self → IsReply P cuts heads rest depth bx (answer_window W self.worst) first at (Secured policy) → IfOk result (AreAnswers P cuts heads rest depth bx W first low (at +ℤ pos 1)) }
    {
        let Answers { worst, mut parts } = self;
        parts.push(part(at, policy)).map_err(|_| Memory)?;
        Ok(Answers { worst, parts })
    }

    /// The values with one more that leads to less.
    fn reached(
        self,
        value: Frac,
        at: i64,
        policy: Policy,
        refute: Refute,
    ) -> Result<Answers, Memory>
        ensures { (P : Problem) (cuts : List Row) (heads : List Head) (rest : List Var) (depth : ℕ) (bx : List Range) (W : Window) (first low : ℤ) → IsProperWindow W → AreAnswers P cuts heads rest depth bx W first low at self → IsReply P cuts heads rest depth bx (answer_window W self.worst) first at (Reached value policy refute) → IfOk result (AreAnswers P cuts heads rest depth bx W first low (at +ℤ pos 1)) }
    {
        let Answers {
            worst: _,
            mut parts,
        } = self;
        parts.push(part(at, policy)).map_err(|_| Memory)?;
        let worst = Worst { value, refute };
        Ok(Answers {
            worst: Some(worst),
            parts,
        })
    }

    /// The values with one more, and the reply to it in its window.
    pub fn with(self, at: i64, reply: Reply) -> Result<Answers, Memory>
        ensures { (P : Problem) (cuts : List Row) (heads : List Head) (rest : List Var) (depth : ℕ) (bx : List Range) (W : Window) (first low : ℤ) → IsProperWindow W → AreAnswers P cuts heads rest depth bx W first low at self → IsReply P cuts heads rest depth bx (answer_window W self.worst) first at reply → IfOk result (AreAnswers P cuts heads rest depth bx W first low (at +ℤ pos 1)) }
    {
        match reply {
            Reply::Illegal(tree) => self.illegal(at, tree),
            Reply::Secured(policy) => self.secured(at, policy),
            Reply::Reached {
                value,
                policy,
                refute,
            } => self.reached(value, at, policy, refute),
        }
    }

    /// These values and those behind them, whose window they were answered in.
    pub fn before(self, later: Answers) -> Result<Answers, Memory>
        ensures { (P : Problem) (cuts : List Row) (heads : List Head) (rest : List Var) (depth : ℕ) (bx : List Range) (W : Window) (first low middle next : ℤ) → IsProperWindow W → AreAnswers P cuts heads rest depth bx W first middle next later → AreAnswers P cuts heads rest depth bx (answer_window W later.worst) first low middle self → IfOk result (AreAnswers P cuts heads rest depth bx W first low next) }
    {
        let Answers { worst, mut parts } = self;
        let Answers {
            worst: former,
            parts: others,
        } = later;
        parts.append(others).map_err(|_| Memory)?;
        match worst {
            Some(worst) => Ok(Answers {
                worst: Some(worst),
                parts,
            }),
            None => Ok(Answers {
                worst: former,
                parts,
            }),
        }
    }

    /// An outcome in the window behind these values, as one in the window that they had: what is at that cap or above it is
    /// at the worst value so far.
    pub fn widened(self, outcome: Outcome) -> Outcome
        ensures { (P : Problem) (cuts : List Row) (heads : List Head) (rest : List Var) (depth : ℕ) (bx : List Range) (W : Window) (first low next : ℤ) → IsProperWindow W → AreAnswers P cuts heads rest depth bx W first low next self → IsOutcome P cuts heads rest depth bx (answer_window W self.worst) outcome → IsOutcome P cuts heads rest depth bx W result }
    {
        let Answers { worst, parts: _ } = self;
        match outcome {
            Outcome::Under(refute) => Outcome::Under(refute),
            Outcome::At {
                value,
                policy,
                refute,
            } => Outcome::At {
                value,
                policy,
                refute,
            },
            Outcome::Over { value, policy } => at_worst(worst, value, policy),
        }
    }

    /// What all the values come to.
    pub fn outcome(self, cap: Option<Frac>) -> Outcome
        requires { IsSome (cap_below cap self.worst) }
        ensures { (P : Problem) (cuts : List Row) (heads : List Head) (rest : List Var) (depth : ℕ) (bx : List Range) (W : Window) (first next : ℤ) → cap ≡ W.cap → IsProperWindow W → SetsNext Universal rest → AreAnswers P cuts heads rest depth bx W first (range_at bx depth).low next self → IsPast (range_at bx depth) next → IsOutcome P cuts heads rest depth bx W result }
    {
        let Answers { worst, parts } = self;
        let policy = Policy::Answer { parts };
        match worst {
            Some(worst) => {
                let Worst { value, refute } = worst;
                Outcome::At {
                    value,
                    policy,
                    refute,
                }
            }
            None => over(cap, policy),
        }
    }
}

/// The policy secures the worst value so far, or this one where there is none.
fn at_worst(worst: Option<Worst>, value: Frac, policy: Policy) -> Outcome
    ensures { result ≡ at_worst worst value policy }
{
    match worst {
        None => Outcome::Over { value, policy },
        Some(worst) => {
            let Worst { value, refute } = worst;
            Outcome::At {
                value,
                policy,
                refute,
            }
        }
    }
}

/// The policy secures the cap.
fn over(cap: Option<Frac>, policy: Policy) -> Outcome
    requires { IsSome cap }
    ensures { IsOver cap policy result }
{
    match cap {
        Some(value) => {
            // that its denominator is positive
            let _positive = value.den();
            Outcome::Over { value, policy }
        }
        None => unreachable!(),
    }
}

/// The part of this range, with a policy.
pub fn part_of(range: Range, below: Policy) -> PolicyPart
    ensures range { range_of result ≡ range }
    ensures below { below_of result ≡ node.On below }
{
    PolicyPart {
        range,
        below: Below::On(below),
    }
}

/// The part of this value alone, with a policy.
fn part(value: i64, below: Policy) -> PolicyPart
    ensures range { range_of result ≡ single value }
    ensures below { below_of result ≡ node.On below }
{
    part_of(single(value), below)
}

/// The part of this value alone, which no universal play has.
fn illegal_part(value: i64, tree: Empty) -> PolicyPart
    ensures range { range_of result ≡ single value }
    ensures below { below_of result ≡ node.Illegal tree }
{
    PolicyPart {
        range: single(value),
        below: Below::Illegal(tree),
    }
}
