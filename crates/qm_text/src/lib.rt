//! Numbers as text, and the ends of lines.
//! `write_whole` and `write_frac` write the exact numbers of certificates, each in one way; `read_whole` and `read_frac`
//! read just these words back, so that a certificate has one text (`specs/Numbers`, and `one_word_a_number`).
//! `read_decimal` reads the numbers of problems: digits, a point, an exponent (`specs/Decimals`). The value decides and not
//! the length of the word: a number is read where its digits, without the zeros around them, are at most 38 and its
//! value is a fraction of the program; else it `Leaves`.
//! `line_end` finds where a line ends.
#![tactic(auto)]

mod decimal;
mod digits;
mod fault;
mod fraction;
mod laws;
mod lines;
mod significant;
mod tens;
mod whole;
mod writing;

pub use decimal::read_decimal;
pub use fault::NumberFault;
pub use fraction::read_frac;
pub use laws::{one_decimal_a_word, one_word_a_number, zeros_are_zero};
pub use lines::line_end;
pub use whole::read_whole;
pub use writing::{write_count, write_frac, write_whole};
