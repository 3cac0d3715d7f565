//! What linear programming tells of a box: that it is closed for a goal, and by which combination; or the greatest
//! objective of its relaxation; or that the numbers left the range.
//!
//! `relax` takes a game, a box and a goal; `scenario` the same with values at which the last universal variables are
//! fixed first. `relax_point` and `scenario_point` tell with a bound also a point that has it and the combination that
//! closes what is above. `fits_last` tests what a scenario asks of its values. A run goes to its end, whatever the goal: where
//! it fails is then a question about the box alone.
//! Public clauses cite `specs/Answers` (what is right), `Failing` (when the run fails) and `Scenarios` (the fixed box).
#![tactic(auto)]

mod answers;
mod end;
mod fixed;
mod laws;
mod relaxation;
mod scenarios;

pub use answers::{BestPoint, Relaxed, RelaxedPoint, WhyNot};
pub use fixed::fits_last;
pub use laws::scenarios_are_fixed_from_each_such_depth;
pub use qm_game::Goal;
pub use relaxation::{relax, relax_point};
pub use scenarios::{scenario, scenario_point};
