ghost use Rattle.std.specs.Prelude.{◌≡◌};
ghost use Rattle.qm_certread.specs.WordSteps.{fault_of};

use qm_io::Memory;
use qm_text::NumberFault;

/// Why a text is no certificate's.
#[derive(Clone, Copy, Debug, PartialEq, Eq)]
pub enum CertFault {
    /// The line of this number, from 1, isn't spelled as its place asks, or is missing.
    Text(u32),
    /// A number of this line isn't one of its type.
    Number(u32),
    /// Memory ran out.
    Memory,
}

/// What keeps a line from saying something: it isn't spelled as its place asks, or a number isn't one of its type.
#[derive(Clone, Copy, Debug, PartialEq, Eq)]
pub enum Misread {
    Text,
    Number,
}

/// Why a line wasn't read.
#[derive(Clone, Copy, Debug, PartialEq, Eq)]
pub enum Unread {
    Misread(Misread),
    Memory,
}

/// What a word breaks that says no number.
pub(crate) fn fault_of(fault: NumberFault) -> Misread
    ensures { result ≡ fault_of fault }
{
    match fault {
        NumberFault::NotNumber => Misread::Text,
        NumberFault::Leaves => Misread::Number,
    }
}

impl From<Memory> for Unread {
    ghost use Rattle.qm_certread.specs.declared.fault.Unread.TheVariants as unread;

    ghost from_gives = { λ _ e. e ≡ unread.Memory };

    fn from(_: Memory) -> Self {
        Unread::Memory
    }
}

impl From<Misread> for Unread {
    ghost use Rattle.qm_certread.specs.declared.fault.Unread.TheVariants as unread;

    ghost from_gives = { λ m e. e ≡ unread.Misread m };

    fn from(fault: Misread) -> Self {
        Unread::Misread(fault)
    }
}

impl From<Memory> for CertFault {
    ghost use Rattle.qm_certread.specs.declared.fault.CertFault.TheVariants as fault;

    ghost from_gives = { λ _ e. e ≡ fault.Memory };

    fn from(_: Memory) -> Self {
        CertFault::Memory
    }
}
