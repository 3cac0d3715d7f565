ghost use Rattle.std.specs.Prelude.{◌≡◌, ◌≤◌, IsTrue};
ghost use Rattle.qm_model.specs.Boxes.{IsBox};
ghost use Rattle.qm_search.specs.OutcomeSteps.{Secures};

use qm_frac::Frac;
use qm_game::{Bx, Place};
use qm_policy::test_from;
use qm_trees::Policy;

/// Whether the policy secures the value in the box.
pub fn secures(here: Place<'_>, bx: &mut Bx, value: &Frac, policy: &Policy) -> bool
    requires depth { here.depth ≤ here.game.now.wholes }
    requires bx { IsBox here.game.now.vars bx.old }
    ensures secures { IsTrue result → Secures here.entry.game.now here.entry.rest.now here.entry.depth bx.old value.now policy.now }
    ensures same { bx.new ≡ bx.old }
{
    matches!(
        test_from(here.game, here.depth, bx, value, policy),
        Ok(true)
    )
}
