/// What the rule names.
#[derive(Clone, Copy, Debug, PartialEq, Eq)]
pub enum Choice {
    /// No row from row 1 on has a negative constant.
    Done,
    /// This row has one, and no positive entry behind it.
    VoidRow(u32),
    /// The pivot at this row and column.
    Pivot(u32, u32),
}
