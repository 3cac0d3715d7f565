use crate::Empty;
use qm_frac::Frac;
use qm_io::List;
use qm_model::Range;
use sqlite_items::{Boxed, Items};

/// What the existential player does from a prefix on.
#[cycle(policy)]
#[derive(Debug, Drop)]
pub enum Policy {
    /// Sets the next variable, which is existential, to a value.
    Choose { value: i64, below: Boxed<Policy> },
    /// Answers the value of the next variable, which is universal, by the part whose range has it.
    Answer { parts: Items<PolicyPart> },
    /// Sets the continuous variables, where all whole ones are set.
    Leaf { point: List<Frac> },
}

/// What is done about the values of a range.
#[cycle(policy)]
#[derive(Debug, Drop)]
pub struct PolicyPart {
    pub range: Range,
    pub below: Below,
}

/// What stands below a range.
#[cycle(policy)]
#[derive(Debug, Drop)]
pub enum Below {
    /// A policy that goes on from them.
    On(Policy),
    /// No universal play has them: why none has its values in the box.
    Illegal(Empty),
}
