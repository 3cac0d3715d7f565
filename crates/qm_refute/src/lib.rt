//! Whether a refutation shows that a goal can't be reached.
//!
//! `test` takes a game, cuts, a depth, a box of the game, a goal and a refutation. It goes through the refutation in the
//! order of its text, and answers whether each node is right: a combination that closes, parts that cover a variable's
//! range, or a value that is picked for the universal player, with a completion by which the uncertainty rows hold. Each
//! range that is narrowed is put back. If it passes and the cuts hold, no legal prefix of that depth in the box wins.
//!
//! Public clauses cite `judge_refute` of `specs/RefuteJudgement` (the order), `IsRightRefutation` of `specs/RefuteRight`
//! (no order) and `HoldCuts` of `specs/Cuts`, of qm_trees, and `IsLegal` and `Wins` of qm_model.
#![tactic(auto)]

mod allowed;
mod closing;
mod completion;
mod counts;
mod sought;
mod walk;

pub use qm_trees::{Refute, RefutePart};
pub use walk::test;
