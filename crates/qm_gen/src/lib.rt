//! Problems made from numbers.
//!
//! `generate` writes the text of the problem that a number and a size decide, the same everywhere. The draws that it is
//! made of are defined by their place (`specs/Draws`), what the text says by the draws (`specs/Generated`), and the bytes
//! by what the text says, as any small text is written by lines (`generated_text`).
//!
//! Such a text states one problem, whose variables are all whole (`generated_texts_are_small`).
#![tactic(auto)]

mod draws;
mod laws;
mod lists;
mod term;
mod terms;
mod text;
mod writing;

pub use laws::generated_texts_are_small;
pub use text::generate;
