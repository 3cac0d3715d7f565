use crate::LeavePlace;
use qm_frac::Leaves;
use qm_io::Memory;

/// Why a step has no answer.
#[derive(Clone, Copy, Debug, PartialEq, Eq)]
pub enum Stuck {
    /// This operation leaves the range.
    Leaves(LeavePlace, Leaves),
    Memory,
}

impl From<Memory> for Stuck {
    ghost use Rattle.std.specs.Prelude.{◌≡◌};
    ghost use Rattle.qm_simplex.specs.declared.stuck.Stuck.TheVariants as stuck;

    ghost from_gives = { λ _ e. e ≡ stuck.Memory };

    fn from(_: Memory) -> Self {
        Stuck::Memory
    }
}
