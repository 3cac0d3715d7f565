//! Certificates that are read: the form of their text, the first line that isn't in form, and what a text's first fault is.
//!
//! `read` takes a text and a game and gives the certificate whose text it is, which fits the game (`Fits`); or the fault of
//! the first line that isn't in form: `Text` or `Number` with its number, from 1. What `write` made of a certificate that
//! fits is read back to it. What is in form is a definition (`Forms`): what is due where (`Dues`), what the words of a line
//! say there (`Spelling`), and which rule they break. No rule of a tree is judged.
//! Lines one by one: `next_line` takes one, `claim_said` and its like read it, for whoever judges lines as they come.
//! `texts_in_form_are_those_of_certificates_that_fit` says that nothing else is in form.
//!
//! What the first fault of a text is, with the rules of its trees, is a definition too (`FirstFault`, by what is to be judged
//! where: `Tasks`), for whoever judges a text line by line. The laws say that it is the judgement of the trees, line for
//! line, and that a text without fault is that of a certificate that passes.
#![tactic(auto)]

mod cursor;
mod empty_reader;
mod fault;
mod laws;
mod lists;
mod next;
mod order;
mod places;
mod policy_reader;
mod reader;
mod refute_reader;
mod said;
mod spelling;
mod words;

pub use cursor::{Cursor, next_line};
pub use fault::{CertFault, Misread, Unread};
pub use laws::{
    certificates_are_judged_line_for_line, texts_in_form_are_those_of_certificates_that_fit,
    texts_without_fault_are_those_of_passing_certificates, the_worked_example_has_these_faults,
    trees_are_judged_line_for_line,
};
pub use lists::Spoken;
pub use places::{continuous_count, later, player_at, universal_count, whole_vars};
pub use reader::read;
pub use said::{
    Claim, EmptySaid, RefuteSaid, claim_said, count_said, empty_said, range_said, refute_said,
    value_said, values_said,
};
pub use words::{is_alone, is_pair};
