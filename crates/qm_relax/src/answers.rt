use qm_frac::{Frac, Leaves};
use qm_io::List;
use qm_simplex::RunLeaves;
use qm_trees::Combo;

/// Why nothing is told of a relaxation.
#[derive(Debug, Drop)]
pub enum WhyNot {
    /// An operation of the run leaves the range.
    Run(RunLeaves),
    /// An operation leaves where the combination that the run ends with is evaluated over the box.
    Combination(Leaves),
}

/// What is told of the relaxation of a box, for a goal.
#[derive(Debug, Drop)]
pub enum Relaxed {
    /// The combination closes the goal over the box.
    Closed(Combo),
    /// The greatest objective, which reaches the goal.
    Bound(Frac),
    /// The run over the box fails.
    NoBound(WhyNot),
}

/// A point of a relaxation, one fraction for each variable, that has its greatest objective, and a combination that
/// closes all that is above.
#[derive(Debug, Drop)]
pub struct BestPoint {
    pub value: Frac,
    pub point: List<Frac>,
    pub combo: Combo,
}

/// What is told of the relaxation of a box, with a best point where there is a bound.
#[derive(Debug, Drop)]
pub enum RelaxedPoint {
    /// The combination closes the goal over the box.
    Closed(Combo),
    /// The greatest objective reaches the goal.
    Bound(BestPoint),
    /// The run over the box fails.
    NoBound(WhyNot),
}

impl RelaxedPoint {
    ghost use Rattle.std.specs.Prelude.{◌≡◌};
    ghost use Rattle.qm_relax.specs.Answers.{without_point};

    /// The answer without the point and its combination.
    pub fn without_point(self) -> Relaxed
        ensures { result ≡ without_point self }
    {
        match self {
            RelaxedPoint::Closed(combo) => Relaxed::Closed(combo),
            RelaxedPoint::Bound(best) => Relaxed::Bound(best.value),
            RelaxedPoint::NoBound(why) => Relaxed::NoBound(why),
        }
    }
}
