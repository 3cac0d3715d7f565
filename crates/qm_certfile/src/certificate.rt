use qm_frac::Frac;
use qm_io::List;
use qm_trees::{Empty, Policy, Refute};

/// How a game ends, with what shows it. Values are those of the maximised problem.
#[derive(Debug, Drop)]
pub enum Certificate {
    /// The value, a universal play, a policy that reaches the value, and a refutation of every better one.
    Optimal {
        value: Frac,
        legal: List<i64>,
        policy: Policy,
        refute: Refute,
    },
    /// A universal play, and a refutation of every goal.
    Infeasible {
        legal: List<i64>,
        refute: Refute,
    },
    /// Why there is no universal play.
    Empty(Empty),
}
