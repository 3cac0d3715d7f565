ghost use Rattle.std.specs.Prelude.{◌≡◌, Ok};
ghost use Rattle.qm_trees.specs.Verdicts.{line};
ghost use Rattle.qm_certread.specs.Forms.{rule_of};
ghost use Rattle.qm_check.specs.Judging.{IsJudged, fault_of};

use qm_certread::{Misread, Unread};
use qm_frac::Leaves;
use qm_io::Memory;
use qm_trees::Rule;

/// Why a line isn't taken.
#[derive(Clone, Copy, Debug, PartialEq, Eq)]
pub(crate) enum Fault {
    /// It breaks this rule.
    Broken(Rule),
    /// An operation of its rule leaves.
    Leaves(Leaves),
    /// Memory ran out.
    Memory,
}

impl From<Memory> for Fault {
    ghost use Rattle.qm_check.specs.declared.fault.Fault.TheVariants as fault;

    ghost from_gives = { λ _ e. e ≡ fault.Memory };

    fn from(_: Memory) -> Self {
        Fault::Memory
    }
}

/// The rule that a line breaks that is misread so.
pub(crate) fn rule_of(misread: Misread) -> Rule
    ensures { result ≡ rule_of misread }
{
    match misread {
        Misread::Text => Rule::Text,
        Misread::Number => Rule::Number,
    }
}

/// Why a line isn't taken that wasn't read.
pub(crate) fn fault_of(unread: Unread) -> Fault
    ensures { result ≡ fault_of unread }
{
    match unread {
        Unread::Misread(misread) => Fault::Broken(rule_of(misread)),
        Unread::Memory => Fault::Memory,
    }
}

/// That the rule's test is passed.
pub(crate) fn pass(rule: Rule, test: Result<bool, Leaves>) -> Result<(), Fault>
    ensures { IsJudged (line rule test) result }
{
    match test {
        Ok(true) => Ok(()),
        Ok(false) => Err(Fault::Broken(rule)),
        Err(leaves) => Err(Fault::Leaves(leaves)),
    }
}
