//! Whether a policy of the existential player reaches a value.
//!
//! `test` takes a game, a box of the game, a value and a policy. It goes through the policy in the order of its text, and
//! answers whether each node is right: a value in range at an existential variable, parts that cover the range at a
//! universal one, and at a leaf a point that meets the bounds and rows and reaches the value at the worst ends of the
//! box. A range without legal values has a tree in place of a policy. Each range that is narrowed is put back.
//! Over the whole box a policy that passes wins. `test_from` does the same for a policy that begins at a depth.
//! `row_sum` and `leaf_objective` are its evaluations at a leaf, one by one.
//!
//! Public clauses cite `judge_policy` of `specs/PolicyJudgement` (the order), `IsRightPolicy` of `specs/PolicyRight` (no
//! order), `PolicyReaches` of `specs/Reaching` and `specs/Leaves`, of qm_trees, and `Wins` of qm_model.
#![tactic(auto)]

mod fractions;
mod leaf;
mod sides;
mod walk;

pub use leaf::{leaf_objective, row_sum};
pub use qm_trees::{Below, Policy, PolicyPart};
pub use walk::{test, test_from};
