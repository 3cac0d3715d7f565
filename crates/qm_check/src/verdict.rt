use qm_certread::Claim;
use qm_frac::Leaves;
use qm_trees::Rule;

/// What is told of a certificate's text.
#[derive(Clone, Copy, Debug, PartialEq, Eq)]
pub enum Verdict {
    /// No line is at fault: it shows this.
    Accepted(Claim),
    /// The line of this number, from 1, is the first at fault, and breaks this rule.
    Refused(u32, Rule),
}

/// Why nothing is told of a text.
#[derive(Clone, Copy, Debug, PartialEq, Eq)]
pub enum CheckFault {
    /// The source failed.
    Read,
    /// It has more than 268,435,456 bytes.
    Limit,
    /// The line of this number, from 1, is the first at fault: this operation of its rule leaves.
    Leaves(u32, Leaves),
    /// Memory ran out.
    Memory,
}
