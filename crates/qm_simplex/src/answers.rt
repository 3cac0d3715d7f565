use qm_frac::{Frac, Leaves};
use qm_io::{List, Memory};
use qm_trees::Combo;
use thiserror::Error;

/// Where an operation belongs. Rows and columns are the tableau's: row 0 is the objective's and column 0 the
/// constants'. Variables and rows of the game count from 1.
#[derive(Clone, Copy, Debug, PartialEq, Eq)]
pub enum LeavePlace {
    /// A quotient that the rule compares: its row and its column.
    Quotient(u32, u32),
    /// An entry that a pivot writes: its row and its column.
    Entry(u32, u32),
    /// The value of the relaxation.
    Value,
    /// The value of a variable.
    Point(u32),
    /// What a row comes to at the point.
    RowSum(u32),
    /// What the objective comes to at the point.
    Objective,
    /// What the combination comes to over the box.
    Combination,
}

/// The first operation that leaves the range, where it belongs, and the pivots until then: where it belongs to an entry,
/// the pivot that leaves is the last of them.
#[derive(Debug, Drop)]
pub struct RunLeaves {
    pub pivots: List<(u32, u32)>,
    pub at: LeavePlace,
    pub leaves: Leaves,
}

/// How a run ends, after so many pivots.
#[derive(Debug, Drop)]
pub enum LpEnd {
    /// A point of the relaxation with the greatest value, one fraction for each variable, and a combination
    /// that bounds the objective by it.
    Best {
        point: List<Frac>,
        value: Frac,
        combo: Combo,
        pivots: u64,
    },
    /// The relaxation has no point: the combination contradicts the box.
    Void {
        combo: Combo,
        pivots: u64,
    },
}

/// A run to its end: how it ends, and the pivots until then.
#[derive(Debug, Drop)]
pub struct LpRun {
    pub end: LpEnd,
    pub pivots: List<(u32, u32)>,
}

/// Why there is no end.
#[derive(Debug, Drop, Error)]
pub enum LpFault {
    /// An operation of the run leaves the range.
    #[error("an operation of the run leaves the range")]
    Leaves(RunLeaves),
    #[error("out of memory")]
    Memory,
}

impl From<Memory> for LpFault {
    ghost use Rattle.std.specs.Prelude.{◌≡◌};
    ghost use Rattle.qm_simplex.specs.declared.answers.LpFault.TheVariants as fault;

    ghost from_gives = { λ _ e. e ≡ fault.Memory };

    fn from(_: Memory) -> Self {
        LpFault::Memory
    }
}
