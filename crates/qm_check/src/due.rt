use qm_frac::Frac;
use qm_game::Goal;
use qm_model::Range;

/// What stands below the ranges of a node.
#[derive(Clone, Copy, Debug)]
pub(crate) enum Kind {
    /// Policies at a value, and empty trees under `illegal`.
    Policies(Frac),
    EmptyTrees,
    Refutations(Goal),
}

/// A node below which lines are still to come: its variable, the range that the variable has behind it again, what
/// stands below each of its ranges, how many of them are still to come, and where the next one is to begin.
#[derive(Clone, Copy, Debug)]
pub(crate) struct Open {
    pub kind: Kind,
    pub var: u32,
    pub covered: Range,
    pub left: u32,
    pub next: i128,
}

/// A tree, where so many variables are set, or which may split variables from this position on.
#[derive(Clone, Copy, Debug)]
pub(crate) enum Tree {
    /// A policy at a value.
    Policy { value: Frac, depth: u32 },
    /// The same, or `illegal` and an empty tree.
    Below { value: Frac, depth: u32 },
    Empty { position: u32 },
    Refute { goal: Goal, depth: u32 },
}

/// A line that says nothing but its kind.
#[derive(Clone, Copy, Debug)]
pub(crate) enum Plain {
    Version,
    Policy,
    Refute,
    Illegal,
    End,
}

/// What is due.
#[derive(Clone, Copy, Debug)]
pub(crate) enum Due {
    Line(Plain),
    /// The values of a universal play.
    Played,
    /// A tree over the box.
    Tree(Tree),
    Open(Open),
}
