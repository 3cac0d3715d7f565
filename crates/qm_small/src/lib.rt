//! Small texts: a plain form of the format, defined on its own, which the whole grammar reads as the same problem.
//!
//! There is nothing to call but laws. What is a small text of a problem (`Small`) states that problem by the whole
//! grammar too: `small_texts_are_read_the_same`; and it states no other: `one_problem`. A small text is words (`Words`)
//! that spell (`Spelling`, `Grammar`) an objective, rows and lists of names (`Written`) that fit one another (`Names`);
//! its problem is read off these (`Problems`). What can be written (`Writable`) has a small text, with a line for each
//! part (`Lines`): `written_texts_are_small`.
//!
//! So the definitions of the whole format, of which there are many, can be held against a few that fit on a page.
#![tactic(auto)]

mod laws;

pub use laws::{one_problem, small_texts_are_read_the_same, written_texts_are_small};
