use qm_frac::Frac;

/// What the existential player is to reach.
#[derive(Clone, Copy, Debug, PartialEq, Eq)]
pub enum Goal {
    /// To meet the rows, with any objective. It is no harder than every goal.
    Any,
    /// To meet the rows with an objective above this value.
    Above(Frac),
}
