//! Combinations of rows, cuts, policies, refutations and empty trees: the data of a certificate, and when it is right.
//!
//! `specs/` says each twice: without an order, exactly and in unbounded fractions (`PolicyRight`, `RefuteRight`,
//! `EmptyRight`), and as a judgement in the order of the text, operation by operation, whose first fault is a broken
//! rule or an operation that leaves (`PolicyJudgement`, `RefuteJudgement`, `EmptyJudgement`, over `Verdicts` and
//! `Ranges`). A combination closes a goal by Farkas' lemma: rows times multipliers above 0 contradict the box, or bound
//! the objective (`Entries`, `Evaluation`, `Closing`, `BoxPoints`). A cut is a combination of rows, bounds and earlier
//! cuts, rounded down (`CutEntries`, `CutRules`).
//! A copy of a tree equals it (`copies`), and a tree tells how many nodes it has (`nodes`, by `Nodes`).
//! The laws: a judgement is fine exactly where the tree is right and no operation leaves; a right policy wins its
//! value, play by play (`Reaching`); against a right refutation, whose cuts hold (`Cuts`), nobody wins the goal; no
//! play has its values in the box of a right empty tree (`Picks`).
#![tactic(auto)]

mod combination;
mod combination_laws;
mod copies;
mod cut_combo;
mod empty;
mod empty_laws;
mod nodes;
mod policy;
mod policy_laws;
mod refutation;
mod refutation_laws;
mod refutation_sound;
mod rule;
mod values;

pub use combination::{Combo, ComboValue, Entry};
pub use combination_laws::{
    closed_goals_are_out_of_reach, closing_closes_harder_goals, closing_is_exact,
    combination_values_are_exact, combinations_are_sound, rows_hold_over_one_denominator,
};
pub use cut_combo::{CutCombo, CutEntry, CutRow};
pub use empty::{Empty, EmptyPart};
pub use empty_laws::{fine_empty_trees_are_right, right_empty_trees_leave_no_play};
pub use policy::{Below, Policy, PolicyPart};
pub use policy_laws::{
    fine_policies_are_right, right_policies_are_right_at_less, right_policies_win, yes_means_fine,
};
pub use refutation::{Refute, RefutePart};
pub use refutation_laws::{fine_refutations_are_right, right_refutations_refute_harder_goals};
pub use refutation_sound::right_refutations_refuse;
pub use rule::Rule;
pub use values::values_are_fractions;
