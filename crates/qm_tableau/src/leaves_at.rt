use qm_frac::Leaves;

/// The operation that leaves the range, and the row and the column that it belongs to.
#[derive(Clone, Copy, Debug, PartialEq, Eq)]
pub struct LeavesAt {
    pub row: u32,
    pub col: u32,
    pub leaves: Leaves,
}
