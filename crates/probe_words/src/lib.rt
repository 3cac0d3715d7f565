//! What the programs share that answer line by line: `bytes_of` reads the bytes that a line writes, `game_of` and
//! `game_before` tell the game that such bytes state or the line that refuses them, `box_of` and `cuts_of` read a box and
//! cuts of it, and numbers, ranges, operations and texts are printed. Where words name nothing that a call takes,
//! `NoAnswer` says why.
//! Nothing is promised but that no call fails where it shouldn't: what the answers mean is told by the contracts of the
//! calls that are asked, and shown by the programs' `stdin` and `stdout`.
#![tactic(auto)]

mod asked;
mod boxes;
mod bytes;
mod cuts;
mod hex;
mod lines;
mod no_answer;
mod numbers;
mod quoted;
mod shown;
mod stated;
mod words;

pub use asked::{behind, game_before, parted};
pub use boxes::box_of;
pub use bytes::bytes_of;
pub use cuts::cuts_of;
pub use lines::one_line;
pub use no_answer::{NoAnswer, line_of};
pub use numbers::wholes_of;
pub use shown::{fraction_text, leaves_line, leaves_text, test_line};
pub use stated::{Stated, game_of};
pub use words::{counted, fraction_words, number_words, range_word, range_words, row_word};
