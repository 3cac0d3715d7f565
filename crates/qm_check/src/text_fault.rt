ghost use Rattle.std.specs.Prelude.{◌≡◌};
ghost use Rattle.qm_check.specs.LineFaults.{fault_at};

use crate::fault::Fault;
use qm_frac::Leaves;
use qm_trees::Rule;

/// Why a text isn't accepted.
#[derive(Clone, Copy, Debug, PartialEq, Eq)]
pub enum TextFault {
    /// The line of this number, from 1, is the first at fault, and breaks this rule.
    Broken(u32, Rule),
    /// The line of this number is the first at fault: this operation of its rule leaves.
    Leaves(u32, Leaves),
    /// Memory ran out.
    Memory,
}

/// The fault of the line of this number.
pub(crate) fn fault_at(fault: Fault, line: u32) -> TextFault
    ensures { result ≡ fault_at fault line }
{
    match fault {
        Fault::Broken(rule) => TextFault::Broken(line, rule),
        Fault::Leaves(leaves) => TextFault::Leaves(line, leaves),
        Fault::Memory => TextFault::Memory,
    }
}
