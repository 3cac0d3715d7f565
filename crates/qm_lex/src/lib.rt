//! The tokens of a text.
//! `tokens` takes the longest token at each place, with blanks and comments between them; or it
//! tells the place of the first byte that begins none. What a word spells is in `specs/Spelling`, and what the tokens of a
//! text are, in `specs/Texts`: both speak of words and places alone, and not of the loop that finds them.
//! A text has one list of tokens or one first bad byte, never both (`laws`). A name may hold nearly any mark, so `x-y` is
//! three tokens and `x.y` one; keywords are known in any case.
//! `place_at` tells the line and the column of a byte (`specs/Places`).
#![tactic(auto)]

mod bytes;
mod fault;
mod gaps;
mod laws;
mod lexer;
mod marks;
mod names;
mod numbers;
mod place;
mod token;

pub use fault::LexFault;
pub use laws::{one_bad_byte, one_list_of_tokens, tokens_or_a_bad_byte, tokens_stand_in_order};
pub use lexer::tokens;
pub use place::{Place, place_at, place_behind};
pub use token::{Keyword, Kind, Token};
