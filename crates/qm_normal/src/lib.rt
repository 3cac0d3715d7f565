//! The normal form of a syntax tree: the game that a text states, or why it is out of scope or of limits.
//!
//! `normal` needs a tree in order (`Trees`), as `qm_parse` hands out, and gives its normal form (`Answers`, `Normal`): the
//! game, or the first fault: of scope (`Scopes`), of the variables and their bounds (`Variables`, `Ends`), of a part that
//! is too wide (`Rows`), of too many rows or terms (`Limits`). A row is brought to whole numbers by its least common
//! denominator and by nothing else, and repeated terms are added in the order in which they are written.
//!
//! The laws say that the game has the points and the objective that the text writes (`Meaning`), of a tree whose numbers
//! are proper (`Numbers`), and that bytes state one problem at most (`Stated`). The other files of `specs/`, called
//! `..Steps`, say what the parts of the program do, and no public clause cites them.
#![tactic(auto)]

mod bound_rows;
mod ends;
mod fault;
mod form;
mod latest;
mod laws;
mod limits;
mod names;
mod objective;
mod order;
mod places;
mod problem;
mod roles;
mod rows;
mod scaling;
mod scope;
mod totals;
mod variables;

pub use fault::{Counted, NormalFault, Which};
pub use form::normal;
pub use laws::{
    each_list_of_values_is_of_names, no_fault_is_want_of_memory, normal_forms_are_sound,
    normal_forms_are_what_is_parsed, numbers_of_a_text_are_proper, one_problem_a_text,
    rows_are_what_is_written, rows_of_a_text_have_no_constants, stated_problems_are_in_order,
    the_objective_is_what_is_written, the_problem_is_what_is_written, trees_of_texts_are_in_order,
};
