//! The journal of a search: which prefixes it looked into, one entry for each, and no more entries than the budget.
//!
//! A `Journal` takes entries up to its limit (`enter`), and tells when that is spent. The definitions say what an entry
//! stands for and when a journal is lawful (`specs/Positions`, `Lawful`), how many entries are always enough (`Enough`), and what
//! a question about legality may add (`Questions`). `laws` has the count: a lawful journal has fewer entries than that.
#![tactic(auto)]

mod entry;
mod journal;
mod laws;

pub use entry::{JEntry, JKind};
pub use journal::{Journal, JournalFault};
pub use laws::{answers_add_no_game_entries, lawful_journals_are_short};
