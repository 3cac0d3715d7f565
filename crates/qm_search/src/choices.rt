ghost use Rattle.std.specs.Prelude.{◌≡◌, ◌+◌, ℕ, ℤ, pos, ◌+ℤ◌, ◌≤ℤ◌, List, IfOk, drop, slice_set};
ghost use Rattle.qm_math.specs.Ranges.{IsBetween};
ghost use Rattle.qm_model.specs.declared.game.Problem.{Problem};
ghost use Rattle.qm_model.specs.declared.range.Range.{Range};
ghost use Rattle.qm_model.specs.declared.row.Row.{Row};
ghost use Rattle.qm_model.specs.declared.variable.Player.TheVariants.{Exists};
ghost use Rattle.qm_model.specs.declared.variable.Var.{Var};
ghost use Rattle.qm_model.specs.Ranges.{range_at, single};
ghost use Rattle.qm_trees.specs.declared.policy.Policy.{Choose};
ghost use Rattle.qm_trees.specs.RefuteJudgement.{Head, below_of, range_of};
ghost use Rattle.qm_legal.specs.SearchSteps.{SetsNext};
ghost use Rattle.qm_search.specs.ChoiceSteps.{AreChoices, IsTrial, choice_window};
ghost use Rattle.qm_search.specs.OutcomeSteps.{IsOutcome};
ghost use Rattle.qm_search.specs.declared.outcome.Outcome.TheVariants.{At, Under};
ghost use Rattle.qm_search.specs.declared.window.Window.{Window};
ghost use Rattle.qm_search.specs.PartSteps.{IsPast};
ghost use Rattle.qm_search.specs.Windows.{IsProperWindow};

use crate::outcome::Outcome;
use crate::window::Window;
use qm_frac::Frac;
use qm_game::Goal;
use qm_io::Memory;
use qm_model::single;
use qm_trees::{Policy, Refute, RefutePart};
use sqlite_items::{Boxed, Items};
use std::alloc::Global;

/// The best value so far, by the choice that leads to it.
#[derive(Debug, Drop)]
pub struct Best {
    value: Frac,
    choice: i64,
    policy: Policy,
}

/// The choices of an existential variable so far: the best of them, where one reaches the floor, and a refutation below
/// each.
#[derive(Debug, Drop)]
pub struct Choices {
    best: Option<Best>,
    parts: Items<RefutePart>,
}

/// What one choice more comes to.
#[derive(Debug, Drop)]
pub enum Tried {
    /// The value that it secures isn't below the cap: the others need no try.
    Enough { value: Frac, policy: Policy },
    /// The choices with this one.
    More(Choices),
}

/// The policy that makes this choice.
fn choose(alloc: Global, choice: i64, below: Policy) -> Result<Policy, Memory>
    ensures { IfOk result (λ policy. policy ≡ Choose choice below) }
{
    Ok(Policy::Choose {
        value: choice,
        below: Boxed::new(alloc, below).map_err(|_| Memory)?,
    })
}

impl Choices {
    /// No choice yet.
    pub fn new(alloc: Global) -> Choices
        ensures { (P : Problem) (cuts : List Row) (heads : List Head) (later : List Var) (depth : ℕ) (bx : List Range) (W : Window) (low : ℤ) → AreChoices P cuts heads later depth bx W low low result }
    {
        Choices {
            best: None,
            parts: Items::new(alloc),
        }
    }

    /// The window of the next choice, which is to be better than the best so far.
    pub fn window(&self, window: &Window) -> Window
        ensures { result ≡ choice_window window.now self.now.best }
    {
        match &self.best {
            None => *window,
            Some(best) => Window {
                floor: Goal::Above(best.value),
                cap: window.cap,
            },
        }
    }

    /// The choices with one more below which the floor is refuted.
    fn refuted(self, choice: i64, refute: Refute) -> Result<Choices, Memory>
        ensures { (P : Problem) (cuts : List Row) (heads : List Head) (later : List Var) (depth : ℕ) (bx : List Range) (W : Window) (low : ℤ) → pos 1 ≤ℤ P.scale → IsProperWindow W → AreChoices P cuts heads later depth bx W low choice self → IsOutcome P cuts heads later (depth + 1) (slice_set bx depth (single choice)) (choice_window W self.best) (Under refute) → IfOk result (AreChoices P cuts heads later depth bx W low (choice +ℤ pos 1)) }
    {
        let Choices { best, mut parts } = self;
        parts.push(part(choice, refute)).map_err(|_| Memory)?;
        Ok(Choices { best, parts })
    }

    /// The choices with a better one.
    fn reached(
        self,
        value: Frac,
        choice: i64,
        policy: Policy,
        refute: Refute,
    ) -> Result<Choices, Memory>
        ensures { (P : Problem) (cuts : List Row) (heads : List Head) (later : List Var) (depth : ℕ) (bx : List Range) (W : Window) (low : ℤ) → pos 1 ≤ℤ P.scale → IsProperWindow W → low ≤ℤ choice → AreChoices P cuts heads later depth bx W low choice self → IsOutcome P cuts heads later (depth + 1) (slice_set bx depth (single choice)) (choice_window W self.best) (At value policy refute) → IfOk result (AreChoices P cuts heads later depth bx W low (choice +ℤ pos 1)) }
    {
        let Choices { best: _, mut parts } = self;
        parts.push(part(choice, refute)).map_err(|_| Memory)?;
        let best = Best {
            value,
            choice,
            policy,
        };
        Ok(Choices {
            best: Some(best),
            parts,
        })
    }

    /// The choices with one more, and what it leads to in its window; or that it is enough.
    pub fn with(self, alloc: Global, choice: i64, outcome: Outcome) -> Result<Tried, Memory>
        ensures { (P : Problem) (cuts : List Row) (heads : List Head) (rest : List Var) (depth : ℕ) (bx : List Range) (W : Window) (low : ℤ) → pos 1 ≤ℤ P.scale → IsProperWindow W → SetsNext Exists rest → low ≤ℤ choice → IsBetween (range_at bx depth).low (range_at bx depth).high choice → AreChoices P cuts heads (drop 1 rest) depth bx W low choice self → IsOutcome P cuts heads (drop 1 rest) (depth + 1) (slice_set bx depth (single choice)) (choice_window W self.best) outcome → IfOk result (IsTrial P cuts heads rest (drop 1 rest) depth bx W low (choice +ℤ pos 1)) }
    {
        match outcome {
            Outcome::Under(refute) => Ok(Tried::More(self.refuted(choice, refute)?)),
            Outcome::At {
                value,
                policy,
                refute,
            } => Ok(Tried::More(self.reached(value, choice, policy, refute)?)),
            Outcome::Over { value, policy } => Ok(Tried::Enough {
                value,
                policy: choose(alloc, choice, policy)?,
            }),
        }
    }

    /// These choices and those behind them, whose window they were tried in.
    pub fn before(self, later: Choices) -> Result<Choices, Memory>
        ensures { (P : Problem) (cuts : List Row) (heads : List Head) (rest : List Var) (depth : ℕ) (bx : List Range) (W : Window) (low middle next : ℤ) → pos 1 ≤ℤ P.scale → IsProperWindow W → AreChoices P cuts heads rest depth bx W middle next later → AreChoices P cuts heads rest depth bx (choice_window W later.best) low middle self → IfOk result (AreChoices P cuts heads rest depth bx W low next) }
    {
        let Choices { best, mut parts } = self;
        let Choices {
            best: former,
            parts: others,
        } = later;
        parts.append(others).map_err(|_| Memory)?;
        match best {
            Some(best) => Ok(Choices {
                best: Some(best),
                parts,
            }),
            None => Ok(Choices {
                best: former,
                parts,
            }),
        }
    }

    /// What all the choices come to.
    pub fn outcome(self, alloc: Global) -> Result<Outcome, Memory>
        ensures { (P : Problem) (cuts : List Row) (heads : List Head) (rest : List Var) (depth : ℕ) (bx : List Range) (W : Window) (next : ℤ) → SetsNext Exists rest → AreChoices P cuts heads (drop 1 rest) depth bx W (range_at bx depth).low next self → IsPast (range_at bx depth) next → IfOk result (IsOutcome P cuts heads rest depth bx W) }
    {
        let Choices { best, parts } = self;
        let refute = Refute::Over { parts };
        match best {
            None => Ok(Outcome::Under(refute)),
            Some(best) => {
                let Best {
                    value,
                    choice,
                    policy,
                } = best;
                Ok(Outcome::At {
                    value,
                    policy: choose(alloc, choice, policy)?,
                    refute,
                })
            }
        }
    }
}

/// The part of this value alone.
fn part(value: i64, below: Refute) -> RefutePart
    ensures range { range_of result ≡ single value }
    ensures below { below_of result ≡ below }
{
    RefutePart {
        range: single(value),
        below,
    }
}
