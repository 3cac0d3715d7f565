//! Whether the universal values that are set in a box can be completed to a universal play: a completion, or an empty
//! tree that shows that there is none.
//!
//! [`legal`] takes a game, a box, the prefix whose universal values are set there (`NamedPrefix`, `IsQueryOf`), and the
//! journal of a search. It tells values of the other universal variables with which those that are set are a universal
//! play, or a tree that is right over the box and of which no operation leaves (`IsRightLegality`); and the values exactly
//! where a prefix with those that are set is legal (`IsExact`). `specs/Queries.antt` defines these, over the plays and
//! legal prefixes of `qm_model` and the right trees of `qm_trees`. What it adds to the journal is what a question may add
//! (`qm_journal`), and the journal stays lawful.
//!
//! Within, first values that no uncertainty row refuses are guessed (`guess`; [`completed_at_once`] offers them alone).
//! Where that fails, a depth-first search sets the universal variables in game order (`search`), each from the low end of
//! what propagation leaves on (`guide`). The first uncertainty row that is dead over a value's box closes it (`dead`), and with it the longest run
//! of values that the row is dead over, found by bisection (`run`, `part`). `specs/SearchSteps.antt` and
//! `JournalSteps.antt` define what these steps promise one another.
#![tactic(auto)]

mod answer;
mod at_once;
mod completion;
mod copied;
mod dead;
mod fault;
mod guess;
mod guide;
mod legality;
mod named;
mod part;
mod run;
mod search;
mod shown;

pub use answer::legal;
pub use at_once::completed_at_once;
pub use fault::LegalFault;
pub use legality::Legality;
pub use named::NamedPrefix;
pub use qm_trees::{Empty, EmptyPart};
