ghost use Rattle.std.specs.Prelude.{◌≡◌};
ghost use Rattle.qm_model.specs.Plays.{is_universal};

use crate::{Player, Var};

/// Whether the universal player sets the variable.
pub fn is_for_all(var: &Var) -> bool
    ensures { result ≡ is_universal var.now }
{
    var.player == Player::All
}
