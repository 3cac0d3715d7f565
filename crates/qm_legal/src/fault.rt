ghost use Rattle.std.specs.Prelude.{◌≡◌};
ghost use Rattle.qm_journal.specs.declared.journal.JournalFault.TheVariants as journal_fault;
ghost use Rattle.qm_legal.specs.declared.fault.LegalFault.TheVariants as fault;
ghost use Rattle.qm_legal.specs.JournalSteps.{fault_of};

use qm_io::Memory;
use qm_journal::JournalFault;

/// Why a question isn't answered.
#[derive(Clone, Copy, Debug, PartialEq, Eq)]
pub enum LegalFault {
    /// The answer needs an entry more, and the journal has as many as its limit.
    Spent,
    /// Memory ran out.
    Memory,
}

impl From<Memory> for LegalFault {
    ghost from_gives = { λ _ e. e ≡ fault.Memory };

    fn from(_: Memory) -> Self {
        LegalFault::Memory
    }
}

impl From<JournalFault> for LegalFault {
    ghost from_gives = { λ f e. e ≡ fault_of f };

    fn from(fault: JournalFault) -> Self {
        match fault {
            JournalFault::Spent => LegalFault::Spent,
            JournalFault::Memory => LegalFault::Memory,
        }
    }
}
