ghost use Rattle.std.specs.Prelude.{◌≡◌, ◌↔◌, ◌≤ℤ◌, ℕ, List, IsTrue, pos};
ghost use Rattle.qm_model.specs.declared.game.Problem.{Problem};
ghost use Rattle.qm_model.specs.declared.range.Range.{Range};
ghost use Rattle.qm_model.specs.declared.row.Row.{Row};
ghost use Rattle.qm_model.specs.declared.variable.Var.{Var};
ghost use Rattle.qm_trees.specs.RefuteJudgement.{Head};
ghost use Rattle.qm_search.specs.declared.window.Window.{Window};
ghost use Rattle.qm_search.specs.OutcomeSteps.{IsOutcome};
ghost use Rattle.qm_search.specs.RecallSteps.{IsRecalled, window_above};
ghost use Rattle.qm_search.specs.Windows.{IsCapped, IsProperWindow};

use crate::outcome::Outcome;
use crate::window::{Window, is_capped};
use qm_frac::Frac;
use qm_game::Goal;
use qm_trees::Policy;

/// A copy of a policy that was found elsewhere, and a value that it secures here.
#[derive(Debug, Drop)]
pub struct Recalled {
    pub value: Frac,
    pub policy: Policy,
}

impl Recalled {
    /// Whether the value isn't below the cap.
    pub fn is_enough(&self, window: &Window) -> bool
        ensures { IsTrue result ↔ IsCapped window.now.cap self.now.value }
    {
        is_capped(self.value, window.cap)
    }

    /// The window of better values.
    pub fn window(&self, window: &Window) -> Window
        ensures { result ≡ window_above self.now.value window.now }
    {
        Window {
            floor: Goal::Above(self.value),
            cap: window.cap,
        }
    }

    /// The outcome where the value is enough.
    pub fn enough(self) -> Outcome
        ensures { (P : Problem) (cuts : List Row) (heads : List Head) (rest : List Var) (depth : ℕ) (bx : List Range) (W : Window) → IsRecalled P rest depth bx W self → IsCapped W.cap self.value → IsOutcome P cuts heads rest depth bx W result }
    {
        Outcome::Over {
            value: self.value,
            policy: self.policy,
        }
    }

    /// An outcome in the window of better values, as one of the window: where none is better, this value is what is reached.
    pub fn or_better(self, outcome: Outcome) -> Outcome
        ensures { (P : Problem) (cuts : List Row) (heads : List Head) (rest : List Var) (depth : ℕ) (bx : List Range) (W : Window) → IsProperWindow W → IsRecalled P rest depth bx W self → (IsCapped W.cap self.value → ⊥) → IsOutcome P cuts heads rest depth bx (window_above self.value W) outcome → IsOutcome P cuts heads rest depth bx W result }
    {
        match outcome {
            Outcome::Under(refute) => Outcome::At {
                value: self.value,
                policy: self.policy,
                refute,
            },
            Outcome::At {
                value,
                policy,
                refute,
            } => Outcome::At {
                value,
                policy,
                refute,
            },
            Outcome::Over { value, policy } => Outcome::Over { value, policy },
        }
    }
}
