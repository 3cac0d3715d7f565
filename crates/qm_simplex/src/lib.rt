//! The linear relaxation of a box, solved exactly by Gomory's lexicographic dual simplex method: pivots by the rule from
//! the first tableau on, and at the end a best point with a combination that bounds the objective by the same value, or,
//! after Farkas, a combination that contradicts the box.
//! `solve_lp` takes a game, cuts over its variables and a box in which no range is empty. It answers the end, or the first
//! operation that leaves the range, where it belongs, and the pivots up to there; `run_lp` lists the pivots of the end too.
//! Their clauses cite `Stops` (what is answered where a run stops), `Runs` (tableaus that follow on), `Listed`, and `Ends`
//! over `Relaxation` and `Multipliers`: what an end means, and how few pivots there are. The laws say that a run has one
//! answer and one at least, that it is short, and, by `Exact`, that it is the run in unbounded fractions. `LeafRuns` and
//! `RightLeaves` define what is evaluated behind the end of a leaf's run, and when it is right to say that a number left.
#![tactic(auto)]

mod answers;
mod combination;
mod end_laws;
mod exact_laws;
mod point;
mod run;
mod run_laws;
mod solve;
mod stuck;

pub use answers::{LeavePlace, LpEnd, LpFault, LpRun, RunLeaves};
pub use end_laws::{
    best_ends_are_best, closing_entries_are_entries, ends_of_runs_are_right, void_ends_are_void,
};
pub use exact_laws::runs_are_exact;
pub use run_laws::{runs_are_short, runs_end, runs_have_one_answer, runs_keep_tableaus_good};
pub use solve::{run_lp, solve_lp};
