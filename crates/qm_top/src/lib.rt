//! The top call: `run` reads its words, does what they ask for, and writes one report to its sink.
//! It needs sources and a sink of which nothing is known but that they pass bytes and count their faults. It answers the
//! exit status; the sink took exactly the text that goes with it, or failed and took a part of one.
//! What may be answered is one relation of words, input, status and text (`specs/Answers.antt`): a certificate that passes
//! the judgement of `qm_certfile` and what it claims is how the problem ends, a lawful journal that spends the budget
//! (`specs/SpentLines.antt`), what the first line at fault of a given certificate is, or that it has none
//! (`specs/CheckLines.antt`), or the line of `specs/FaultLines.antt` that says why there is no problem
//! (`specs/Refusals.antt`) or no answer. Words and bytes decide which of these comes, but for
//! want of memory (`specs/Completeness.antt`), as any bytes state a problem or are refused, and not both (`stated_or_refused`).
//! What `solve` prints as a certificate `check` accepts (`a_text_has_no_fault_where_it_shows_its_claim`).
//! The text of a certificate that is printed has no other certificate that passes (`a_printed_text_has_one_certificate`).
//! `stated_by` is its first half alone: the game that a text states, or the report that refuses it
//! (`specs/Stating.antt`). Text, tokens and syntax tree are gone when the search begins.
#![tactic(auto)]

mod check;
mod check_lines;
mod claim_lines;
mod command;
mod fault_lines;
mod laws;
mod leave_lines;
mod made;
mod piece;
mod refusal;
mod report;
mod solve;
mod spent_lines;
mod stated;
mod summary_lines;
mod top;

pub use laws::{
    a_printed_text_has_one_certificate, a_text_has_no_fault_where_it_shows_its_claim,
    stated_or_refused,
};
pub use report::Report;
pub use stated::{Stated, stated_by};
pub use top::run;
