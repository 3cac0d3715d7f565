ghost use Rattle.std.specs.Prelude.{◌≡◌, ◌↔◌, IsTrue, None};
ghost use Rattle.qm_game.specs.Goals.{goal_of};
ghost use Rattle.qm_game.specs.declared.goal.Goal.TheVariants as goal;
ghost use Rattle.qm_model.specs.Goals.{Reaches};
ghost use Rattle.qm_search.specs.Windows.{IsCapped};

use crate::order::is_less;
use qm_frac::Frac;
use qm_game::Goal;

/// Which values a visit is to tell apart: those that reach the floor and are below the cap. Of others it is enough to
/// know on which side they are.
#[derive(Clone, Copy, Debug)]
pub struct Window {
    pub floor: Goal,
    /// None: each value is below it.
    pub cap: Option<Frac>,
}

/// The window of all values.
pub fn all_values() -> Window
    ensures { result ≡ record { floor = goal.Any; cap = None } }
{
    Window {
        floor: Goal::Any,
        cap: None,
    }
}

/// Whether the value reaches the goal.
pub fn reaches(value: Frac, goal: Goal) -> bool
    ensures { IsTrue result ↔ Reaches value (goal_of goal) }
{
    match goal {
        Goal::Any => true,
        Goal::Above(most) => is_less(most, value),
    }
}

/// Whether the value is at the cap or above it.
pub fn is_capped(value: Frac, cap: Option<Frac>) -> bool
    ensures { IsTrue result ↔ IsCapped cap value }
{
    match cap {
        None => false,
        Some(cap) => !is_less(value, cap),
    }
}
