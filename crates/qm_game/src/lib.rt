//! Boxes of a game, and what its rows come to over a box and at values, without overflow.
//!
//! `whole_box` is the box of the variables' own bounds; `narrow` and `try_narrow` put a range inside a variable's range
//! in its place, so that the box stays one of the game (`IsBox` of qm_model). `least` and `most` are a row's least and
//! greatest values over a box, `form_at` and `row_holds` are about values; each needs a row of the game, whose size
//! bounds every sum on the way. `row_dead` tells the first row that no value of the box meets. `Place` is where a walk
//! through the whole variables stands.
//! Public clauses cite qm_model's `Boxes`, `Linear`, `Sizes` and `Plays`, and here `specs/Dead`, `First` and `Goals`.
//! The game itself is given on from the crate of its definitions.
#![tactic(auto)]

mod bx;
mod dead;
mod ends;
mod forms;
mod goal;
mod place;
mod product;

pub use bx::{Bx, has_empty, is_inside, narrow, put, try_narrow, whole_box};
pub use dead::row_dead;
pub use ends::{least, most};
pub use forms::{form_at, row_holds};
pub use goal::Goal;
pub use place::Place;
pub use qm_model::{Game, Player, Problem, Range, Row, RowId, Sense, Term, Terms, Var};
