//! Propagation: a box narrowed by the rows and the uncertainty rows of a game, each alone.
//! `propagate` takes a box of the game, and answers the narrowed box with a reason for each narrowing, and whether no row
//! alone narrows it further; or the row that is dead over the box that the reasons lead to. It ends after 32 sweeps.
//! Its clauses say it twice: `Courses` is the very answer, sweep by sweep; `Propagation` is what it means: no point that
//! meets the rows is lost, and a dead row leaves none. `Narrower` is the narrowing by one term, and the law
//! `a_row_narrows_exactly_so_far` says that it is as far as a row alone goes: whole ends inwards, others outwards.
#![tactic(auto)]

mod course;
mod laws;
mod narrower;
mod propagation;
mod reason;
mod sweep;

pub use laws::a_row_narrows_exactly_so_far;
pub use propagation::propagate;
pub use reason::{Propagated, Reason};
