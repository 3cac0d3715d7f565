ghost use Rattle.std.specs.Prelude.{◌≡◌, ℕ, ℤ, pos, ◌≤ℤ◌, List};
ghost use Rattle.qm_model.specs.declared.game.Problem.{Problem};
ghost use Rattle.qm_model.specs.declared.range.Range.{Range};
ghost use Rattle.qm_model.specs.declared.row.Row.{Row};
ghost use Rattle.qm_model.specs.declared.variable.Var.{Var};
ghost use Rattle.qm_trees.specs.RefuteJudgement.{Head};
ghost use Rattle.qm_search.specs.declared.window.Window.{Window};
ghost use Rattle.qm_search.specs.OutcomeSteps.{IsOutcome, IsPlayed};
ghost use Rattle.qm_search.specs.Windows.{IsProperWindow};

use crate::outcome::Outcome;
use crate::window::{Window, is_capped, reaches};
use qm_frac::Frac;
use qm_trees::{Policy, Refute};

/// What a box comes to in which all whole variables are set, with the trees that show it.
#[derive(Debug, Drop)]
pub enum Played {
    /// The rows can't be met: a refutation of the goal of any objective.
    Lost(Refute),
    /// The value, a policy that reaches it, and a refutation of every better one.
    Reached {
        value: Frac,
        policy: Policy,
        refute: Refute,
    },
}

impl Played {
    /// What that is for a window.
    pub fn within(self, window: &Window) -> Outcome
        ensures { (P : Problem) (cuts : List Row) (heads : List Head) (rest : List Var) (depth : ℕ) (bx : List Range) → pos 1 ≤ℤ P.scale → IsProperWindow window.now → IsPlayed P cuts heads rest depth bx self → IsOutcome P cuts heads rest depth bx window.now result }
    {
        match self {
            Played::Lost(refute) => Outcome::Under(refute),
            Played::Reached {
                value,
                policy,
                refute,
            } => {
                if !reaches(value, window.floor) {
                    return Outcome::Under(refute);
                }
                if is_capped(value, window.cap) {
                    return Outcome::Over { value, policy };
                }
                Outcome::At {
                    value,
                    policy,
                    refute,
                }
            }
        }
    }
}
