use qm_frac::Frac;
use qm_trees::{Policy, Refute};

/// What a visit tells of a box, for a window.
#[derive(Debug, Drop)]
pub enum Outcome {
    /// The floor can't be reached: a refutation of it.
    Under(Refute),
    /// The value lies in the window: a policy that secures it, and a refutation of every better one.
    At {
        value: Frac,
        policy: Policy,
        refute: Refute,
    },
    /// The value is at the cap or above it: a policy that secures it.
    Over {
        value: Frac,
        policy: Policy,
    },
}
