//! Quantified programs: their plain data, and what it means to win one.
//!
//! A `Problem` has whole variables that two players set in turn, continuous ones behind them, rows, uncertainty rows
//! and an objective; a `Game` is a problem that is in order (`specs/Sound`), and every later crate takes one. `single`,
//! `range_in`, `contains`, `start` and `after` are about ranges (`Ranges`), `is_for_all` about whose variable it is.
//! The definitions: `Linear` forms and `Sizes`; `Boxes`; `Plays` of the universal player; `Legal` prefixes; `Points`
//! of the continuous variables; `Goals`; `Wins` and `Endings`. `laws` ties them: which prefixes are legal, that one
//! which wins is completed by a play that wins, and that a problem has one ending.
#![tactic(auto)]

mod game;
mod laws;
mod range;
mod row;
mod row_id;
mod turn;
mod variable;

pub use game::{Game, Problem, Sense};
pub use laws::{
    a_legal_prefix_goes_on, a_problem_has_one_ending, a_winning_prefix_is_completed,
    an_easier_goal_is_won, legal_means_some_play_agrees, legal_prefixes_meet_uncertainty_rows,
};
pub use range::{Range, after, contains, range_in, single, start};
pub use row::{Row, Term, Terms};
pub use row_id::RowId;
pub use turn::is_for_all;
pub use variable::{Player, Var};
