//! Tableaus: quantities of a game, cuts and a box as affine functions of as many of them, one for each variable.
//! `first` makes the first one, `Tableau::choose` names the next pivot by the rule of the lexicographic dual method, which
//! is Gomory's, and `Tableau::pivot` exchanges two quantities. Each answers exactly up to the first operation that leaves
//! the range, and a pivot that leaves changes nothing.
//! Its numbers are kept as whole numbers over one denominator a row as long as these are small, which no contract shows.
//! Clauses cite `Tables` (what contracts see of a tableau), `Quantities` and `FirstTable`, `Rule` (the rule), `Pivoting`,
//! and `Leaving`, where an operation leaves. The laws cite `Good`, what each tableau of a run keeps: its rows are its
//! quantities, and its columns are lexicographically negative, so the constants fall from pivot to pivot. `Exact` is the
//! same without a range, `Wholes` rows of whole numbers over one denominator.
#![tactic(auto)]

mod beginning;
mod choice;
mod choosing;
mod comparing;
mod entries;
mod first_rows;
mod grid;
mod laws;
mod leaves_at;
mod pivoting;
mod rows;
mod sizes;
mod sparse;
mod tableau;
mod updating;
mod wholes;

pub use beginning::first;
pub use choice::Choice;
pub use laws::{
    pivots_are_exact, pivots_keep_every_row, pivots_keep_tableaus_good, pivots_lower_the_constants,
    the_columns_decide_the_constants, the_first_columns_are_negative, the_first_tableau_is_good,
    the_rule_never_leaves_whole_rows, whole_rows_are_pivoted,
};
pub use leaves_at::LeavesAt;
pub use tableau::Tableau;
