//! The separate checker of certificates, with evaluators of its own: it takes types, numbers and words of the crates below,
//! and shares their definitions, but no code that judges.
//!
//! `check` reads a source and tells what a certificate's text comes to: it is accepted with its claim exactly where no line
//! is at fault, and else the first that is, with the rule that it breaks or the operation that leaves (`Checking`). `judge`
//! is the same of a text in memory (`Texts`). It is one loop over the lines, over a list of what is due (`Walks`) and one
//! box, to which each node gives its range back when it is read; what a line is judged by is qm_certread's `FirstFault`.
#![tactic(auto)]

mod beginning;
mod closing;
mod combination;
mod due;
mod empties;
mod ends;
mod fault;
mod going;
mod leaf;
mod line;
mod numbers;
mod parts;
mod picked;
mod play;
mod policies;
mod refutes;
mod rows;
mod said;
mod sums;
mod text;
mod text_fault;
mod verdict;
mod walk;
mod whole;
mod worst;

pub use text::judge;
pub use text_fault::TextFault;
pub use verdict::{CheckFault, Verdict};
pub use whole::check;
