//! Combinations of rows over a box, and trees of them that show that no universal play has its values in a box.
//!
//! `value` takes a game, its cuts, a box and a combination whose rows are there, and tells what the combination comes to:
//! a contradiction, a bound of the objective, or nothing. `closes` tells whether by that no point of the box that meets
//! the rows reaches a goal. That rows without a common point have multipliers which add them up to a contradiction is
//! Farkas's lemma; the ends of the box stand in for the rows of the bounds, so that a combination names no bounds.
//! `test_empty` goes through a tree that splits ranges of universal variables and closes by uncertainty rows alone.
//! Each leaves where the first operation leaves the range of `Frac`. No call takes memory.
//!
//! `place_of` and `coefficient_of` find a variable among the terms of a row.
//!
//! Public clauses cite `value_of` of `specs/Evaluation`, `closing` of `specs/Closing`, `judge_empty` of
//! `specs/EmptyJudgement` and `IsRightEmpty` of `specs/EmptyRight`, all of qm_trees. Combinations and trees are given on.
#![tactic(auto)]

mod closing;
mod empty;
mod sums;
mod terms;
mod void;

pub use closing::{closes, value};
pub use empty::test_empty;
pub use qm_game::Goal;
pub use qm_trees::{Combo, ComboValue, Empty, EmptyPart, Entry};
pub use terms::{coefficient_of, place_of};
