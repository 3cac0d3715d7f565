ghost use Rattle.std.specs.Prelude.{◌≡◌, IfOk};

use crate::{Below, Combo, Empty, EmptyPart, Policy, PolicyPart};
use qm_frac::Frac;
use qm_io::{List, Memory};
use sqlite_items::{Boxed, Items};
use std::alloc::Global;

impl Combo {
    /// A copy. `Memory`, where there is none for it.
    pub fn copy(&self, alloc: Global) -> Result<Combo, Memory>
        ensures { IfOk result (λ copy. copy ≡ self.now) }
    {
        let mut entries = List::new(alloc);
        entries.append(self.entries())?;
        Ok(Combo::of(self.objective(), entries))
    }
}

impl Empty {
    /// A copy. `Memory`, where there is none for it.
    #[cycle(copy_empties)]
    pub fn copy(&self, alloc: Global) -> Result<Empty, Memory>
        ensures { IfOk result (λ copy. copy ≡ self.now) }
    {
        match self {
            Empty::Split { var, parts } => {
                let parts = copy_empty_parts(alloc, parts.as_slice())?;
                Ok(Empty::Split { var: *var, parts })
            }
            Empty::Close(combo) => {
                let copy = combo.copy(alloc)?;
                Ok(Empty::Close(copy))
            }
        }
    }
}

/// Copies of the parts.
#[cycle(copy_empties)]
fn copy_empty_parts(alloc: Global, parts: &[EmptyPart]) -> Result<Items<EmptyPart>, Memory>
    ensures { IfOk result (λ copy. copy ≡ parts.now) }
{
    let mut copy = Items::new(alloc);
    for part in parts {
        let below = part.below.copy(alloc)?;
        let range = part.range;
        copy.push(EmptyPart { range, below })?;
    }
    Ok(copy)
}

impl Policy {
    /// A copy. `Memory`, where there is none for it.
    #[cycle(copy_policies)]
    pub fn copy(&self, alloc: Global) -> Result<Policy, Memory>
        ensures { IfOk result (λ copy. copy ≡ self.now) }
    {
        match self {
            Policy::Choose { value, below } => {
                let copy = below.get().copy(alloc)?;
                let below = Boxed::new(alloc, copy)?;
                Ok(Policy::Choose {
                    value: *value,
                    below,
                })
            }
            Policy::Answer { parts } => {
                let parts = copy_policy_parts(alloc, parts.as_slice())?;
                Ok(Policy::Answer { parts })
            }
            Policy::Leaf { point } => {
                let point = copy_point(alloc, point.as_slice())?;
                Ok(Policy::Leaf { point })
            }
        }
    }
}

/// Copies of the parts.
#[cycle(copy_policies)]
fn copy_policy_parts(alloc: Global, parts: &[PolicyPart]) -> Result<Items<PolicyPart>, Memory>
    ensures { IfOk result (λ copy. copy ≡ parts.now) }
{
    let mut copy = Items::new(alloc);
    for part in parts {
        let below = copy_below(alloc, &part.below)?;
        let range = part.range;
        copy.push(PolicyPart { range, below })?;
    }
    Ok(copy)
}

/// A copy of what stands below a range.
#[cycle(copy_policies)]
fn copy_below(alloc: Global, below: &Below) -> Result<Below, Memory>
    ensures { IfOk result (λ copy. copy ≡ below.now) }
{
    match below {
        Below::On(policy) => {
            let copy = policy.copy(alloc)?;
            Ok(Below::On(copy))
        }
        Below::Illegal(tree) => {
            let copy = tree.copy(alloc)?;
            Ok(Below::Illegal(copy))
        }
    }
}

/// A copy of a point.
fn copy_point(alloc: Global, point: &[Frac]) -> Result<List<Frac>, Memory>
    ensures { IfOk result (λ copy. copy ≡ point.now) }
{
    let mut copy = List::new(alloc);
    copy.append(point)?;
    Ok(copy)
}
