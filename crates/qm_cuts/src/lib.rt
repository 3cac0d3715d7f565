//! Rounded cuts, by Gomory and Chvátal: rows that each whole point keeps which meets the rows that they are combined
//! from.
//!
//! `derive` makes a cut of multipliers on rows, uncertainty rows, earlier cuts and the variables' own bounds, or tells
//! the first reason why there is none; `add` keeps it in a `CutPool` with what it is made of; `test_cut` tells, without
//! memory, whether a row is the cut of such multipliers. `laws`: a whole point meets the cuts of what it meets, so that
//! cuts in their order may stand beside the rows in combinations and relaxations, and a derivation gives a cut.
//! Public clauses cite `IsCut`, `AreCuts` and `derivation` of qm_trees' `specs/CutRules`, its `HoldCuts`, and here
//! `specs/Pools` and `Answers`. What cuts are made of is given on.
#![tactic(auto)]

mod derivation;
mod fault;
mod laws;
mod nexts;
mod pool;
mod seen;
mod sight;
mod size;
mod standing;
mod sums;
mod tested;

pub use derivation::{add, derive};
pub use fault::CutFault;
pub use laws::{cuts_hold, derivations_give_cuts, whole_points_keep_cuts};
pub use pool::CutPool;
pub use qm_trees::{CutCombo, CutEntry, CutRow};
pub use tested::test_cut;
