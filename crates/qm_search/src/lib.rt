//! The certificate of a game, by a search that goes through both players' values of the whole variables, within a budget,
//! and exact linear programs behind them.
//!
//! [`solve`] tells a certificate that passes (`Passes` of `qm_certfile`, `specs/Passes.antt`): its claim is how the game
//! ends (`HasEnding` of `qm_model`, `specs/Endings.antt`), that there is no universal play, that the rows can't always be
//! met, or the best value that can be secured. Beside it stands the journal of the search, lawful (`IsLawfulWith` of
//! `qm_journal`) by what this search asks of a prefix (`specs/Entering.antt`). Or it tells that the budget is spent, by
//! such a journal, or where a number left the range (`specs/Faults.antt`, over `IsRightLeave` of `qm_simplex`).
//!
//! Within, a visit (`walk`) has a window (`window`): it tells a value that reaches the floor and is below the cap, with a
//! policy and a refutation of more; of another box it tells that the floor is refuted, or that the cap is secured
//! (`outcome`). Before a prefix is entered its box is judged (`judge`): an empty range or a dead row closes it
//! (`closings`), where all whole variables are set it is a leaf (`leaf`, `mixed`, `leaf_run`, `played`), else its relaxation
//! may close it. An existential variable goes to the best of its values (`choices`), and each has to be better than the
//! best before; a universal one to the worst of its legal values (`answers`, `answer`, `legality`), and each has to be
//! worse than the worst before.
//!
//! Where a visit begins is free (`start`, `guides`): with the value of the relaxation's best point, or with the one by which
//! the universal player ended a visit at this depth last, or the highest. But first a look is taken at the values of a
//! universal variable that are few (`looks`): one behind which the floor is closed at once ends the visit, else the one
//! with the least bound comes first. The policy of one value answers all where it is tested to hold for all (`everywhere`).
//! Policies are remembered with what was left of each row where they were found (`remembered`, `left`), and tested where
//! there is as much room: one that secures the cap is enough, and above a value that one secures only better ones are
//! looked for (`recalled`). A best point is lent on, and where it lies in a later box, that needs no relaxation of its own.
//! So is the universal player's known completion, so that only a newly found one is a list of its own. Whatever is used
//! again is tested at the very box (`reuse`), so no clause speaks of where it comes from.
//!
//! `specs/*Steps.antt` define what these steps promise one another; no public clause cites them.
#![tactic(auto)]

mod answer;
mod answers;
mod choices;
mod closings;
mod ending;
mod everywhere;
mod fault;
mod guides;
mod judge;
mod leaf;
mod leaf_run;
mod left;
mod legality;
mod looks;
mod mixed;
mod order;
mod outcome;
mod played;
mod recalled;
mod remembered;
mod reuse;
mod start;
mod state;
mod stop;
mod walk;
mod window;

pub use ending::solve;
pub use fault::{Leave, SearchFault, Solved};
