ghost use Rattle.std.specs.Prelude.{◌≡◌, ◌-◌, ◌^◌, map, min, sum};
ghost use Rattle.qm_trees.specs.Nodes.{below_nodes, empty_nodes, empty_part_nodes, policy_nodes, policy_part_nodes};

use crate::{Below, Empty, EmptyPart, Policy, PolicyPart};

impl Empty {
    /// How many nodes the tree has: splits, and combinations that close. `u64::MAX`, where they are more.
    #[cycle(count_empties)]
    pub fn nodes(&self) -> u64
        ensures { result ≡ min (empty_nodes self.now) (2 ^ 64 - 1) }
    {
        match self {
            Empty::Split { parts, .. } => count_empty_parts(parts.as_slice()).saturating_add(1),
            Empty::Close(_) => 1,
        }
    }
}

/// How many nodes the parts have.
#[cycle(count_empties)]
fn count_empty_parts(parts: &[EmptyPart]) -> u64
    ensures { result ≡ min (sum (map empty_part_nodes parts.now)) (2 ^ 64 - 1) }
{
    let mut nodes: u64 = 0;
    for part in parts {
        nodes = nodes.saturating_add(part.below.nodes());
    }
    nodes
}

impl Policy {
    /// How many nodes the policy has: choices, answers and leaves, and those of the trees that call values illegal.
    /// `u64::MAX`, where they are more.
    #[cycle(count_policies)]
    pub fn nodes(&self) -> u64
        ensures { result ≡ min (policy_nodes self.now) (2 ^ 64 - 1) }
    {
        match self {
            Policy::Choose { below, .. } => below.get().nodes().saturating_add(1),
            Policy::Answer { parts } => count_policy_parts(parts.as_slice()).saturating_add(1),
            Policy::Leaf { .. } => 1,
        }
    }
}

/// How many nodes the parts have.
#[cycle(count_policies)]
fn count_policy_parts(parts: &[PolicyPart]) -> u64
    ensures { result ≡ min (sum (map policy_part_nodes parts.now)) (2 ^ 64 - 1) }
{
    let mut nodes: u64 = 0;
    for part in parts {
        nodes = nodes.saturating_add(count_below(&part.below));
    }
    nodes
}

/// How many nodes stand below a range.
#[cycle(count_policies)]
fn count_below(below: &Below) -> u64
    ensures { result ≡ min (below_nodes below.now) (2 ^ 64 - 1) }
{
    match below {
        Below::On(policy) => policy.nodes(),
        Below::Illegal(tree) => tree.nodes(),
    }
}
