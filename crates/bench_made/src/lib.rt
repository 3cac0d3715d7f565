//! Made problems to be timed: a size and a number that have a text (`qm_gen`), what is made of the text (sparse rows,
//! continuous variables), and the game that a text states.
#![tactic(auto)]

mod made;
mod shapes;
mod stated;

pub use made::Made;
pub use shapes::{Density, continuous_text_of, mixed_text_of, text_of};
pub use stated::{game_of, game_of_bytes};
