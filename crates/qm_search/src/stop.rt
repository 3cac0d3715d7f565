ghost use Rattle.std.specs.Prelude.{◌≡◌};
ghost use Rattle.qm_search.specs.StopSteps.{of_journal, of_legality};

use crate::fault::Leave;
use qm_io::Memory;
use qm_journal::JournalFault;
use qm_legal::LegalFault;

/// Why a visit tells nothing.
#[derive(Debug, Drop)]
pub enum Stop {
    /// The journal is full, and an entry is needed.
    Spent,
    /// An operation of a leaf's run leaves the range.
    Leave(Leave),
    /// Memory ran out.
    Memory,
}

impl From<Memory> for Stop {
    ghost use Rattle.std.specs.Prelude.{◌≡◌};
    ghost use Rattle.qm_search.specs.declared.stop.Stop.TheVariants as stop;

    ghost from_gives = { λ _ e. e ≡ stop.Memory };

    fn from(_: Memory) -> Self {
        Stop::Memory
    }
}

impl From<JournalFault> for Stop {
    ghost from_gives = { λ f e. e ≡ of_journal f };

    fn from(fault: JournalFault) -> Self {
        match fault {
            JournalFault::Spent => Stop::Spent,
            JournalFault::Memory => Stop::Memory,
        }
    }
}

impl From<LegalFault> for Stop {
    ghost from_gives = { λ f e. e ≡ of_legality f };

    fn from(fault: LegalFault) -> Self {
        match fault {
            LegalFault::Spent => Stop::Spent,
            LegalFault::Memory => Stop::Memory,
        }
    }
}
