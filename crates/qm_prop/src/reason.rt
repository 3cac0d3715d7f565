use qm_game::{Bx, Range, RowId};
use qm_io::List;

/// A narrowing: the variable's range before and after it, and the row that it follows from.
#[derive(Clone, Copy, Debug, PartialEq, Eq)]
pub struct Reason {
    pub var: u32,
    pub row: RowId,
    pub before: Range,
    pub after: Range,
}

/// What propagation comes to. The reasons stand in the order in which they narrowed the given box.
#[derive(Debug, Drop)]
pub enum Propagated {
    /// The narrowed box. It is settled where no row alone narrows it further.
    Narrowed {
        bx: Bx,
        reasons: List<Reason>,
        settled: bool,
    },
    /// A row that is dead over the box that the reasons lead to.
    Dead {
        row: RowId,
        reasons: List<Reason>,
    },
}
