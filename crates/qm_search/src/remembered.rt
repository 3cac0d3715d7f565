ghost use Rattle.std.specs.Prelude.{◌≡◌, ◌≤◌, IfOk, IfSome};
ghost use Rattle.qm_game.specs.Goals.{goal_of};
ghost use Rattle.qm_model.specs.Boxes.{IsBox};
ghost use Rattle.qm_model.specs.Goals.{Reaches};
ghost use Rattle.qm_search.specs.declared.window.Window.{Window};
ghost use Rattle.qm_search.specs.RecallSteps.{IsRecalled};

use crate::left::Left;
use crate::order::is_less;
use crate::recalled::Recalled;
use crate::reuse::secures;
use crate::window::{Window, reaches};
use qm_frac::Frac;
use qm_game::{Bx, Game, Place};
use qm_io::Memory;
use qm_trees::Policy;
use std::alloc::Global;

/// A policy with more nodes isn't kept.
const MOST_NODES: u64 = 3_000;

/// Nor are more nodes kept in all: then all are forgotten.
const MOST_KEPT: u64 = 400_000;

/// So many policies of a depth are looked at, the latest first,
const MOST_SEEN: usize = 1_000;

/// and so many tested.
const MOST_TESTED: u32 = 16;

/// A policy that was found, the value that it secures, and what was left where it was found.
#[derive(Debug, Drop)]
struct Kept {
    left: Left,
    value: Frac,
    policy: Policy,
}

impl Kept {
    /// Whether the policy may secure the value where this is left.
    fn may_secure(&self, game: &Game, left: &Left, value: Frac) -> bool {
        left.is_roomier(&self.left) && !is_less(self.value_at(game, left), value)
    }

    /// The value that the policy secures where as much is left, but for what is added to the objective before.
    fn value_at(&self, game: &Game, left: &Left) -> Frac {
        match Frac::of(left.more_than(&self.left), game.problem().scale) {
            None => self.value,
            Some(more) => self.value.add(more).unwrap_or(self.value),
        }
    }
}

/// Policies that visits found, by the depth at which they begin. They are tested where they are used again, so no clause
/// speaks of them.
#[derive(Debug, Drop)]
pub struct Remembered {
    depths: Vec<Vec<Kept>>,
    nodes: u64,
}

impl Remembered {
    /// None yet, for each depth of the game.
    pub fn new(alloc: Global, game: &Game) -> Result<Remembered, Memory> {
        let mut depths = Vec::new(alloc);
        for _ in 0..game.problem().wholes {
            depths.push(Vec::new(alloc)).map_err(|_| Memory)?;
        }
        Ok(Remembered { depths, nodes: 0 })
    }

    /// A policy that is remembered and secures the cap in the box, or else a value that reaches the floor.
    pub fn recalled(
        &self,
        alloc: Global,
        here: Place<'_>,
        bx: &mut Bx,
        window: &Window,
    ) -> Result<Option<Recalled>, Memory>
        requires depth { here.depth ≤ here.game.now.wholes }
        requires bx { IsBox here.game.now.vars bx.old }
        ensures recalled { IfOk result (λ found. IfSome found (IsRecalled here.entry.game.now here.entry.rest.now here.entry.depth bx.old window.now)) }
        ensures same { bx.new ≡ bx.old }
    {
        match self.depths.get(here.depth) {
            Some(kept) => recalled_from(alloc, here, bx, window, kept.as_slice()),
            None => Ok(None),
        }
    }

    /// Keeps a policy that secures the value in the box, unless it is large.
    pub fn keep(
        &mut self,
        alloc: Global,
        here: Place<'_>,
        bx: &Bx,
        value: Frac,
        policy: &Policy,
    ) -> Result<(), Memory> {
        let nodes = policy.nodes();
        if MOST_NODES < nodes {
            return Ok(());
        }
        if MOST_KEPT < self.nodes.saturating_add(nodes) {
            *self = Remembered::new(alloc, here.game)?;
        }
        let kept = Kept {
            left: Left::of(alloc, here.game, bx, here.depth)?,
            value,
            policy: policy.copy(alloc)?,
        };
        self.nodes = self.nodes.saturating_add(nodes);
        if let Some(others) = self.depths.get_mut(here.depth) {
            others.push(kept).map_err(|_| Memory)?;
        }
        Ok(())
    }
}

/// The latest of these policies that secures the value in the box, of those that may.
fn securing(
    alloc: Global,
    here: Place<'_>,
    bx: &mut Bx,
    value: Frac,
    left: &Left,
    kept: &[Kept],
) -> Result<Option<Recalled>, Memory>
    requires depth { here.depth ≤ here.game.now.wholes }
    requires bx { IsBox here.game.now.vars bx.old }
    ensures recalled { (W : Window) → Reaches value (goal_of W.floor) → IfOk result (λ found. IfSome found (IsRecalled here.entry.game.now here.entry.rest.now here.entry.depth bx.old W)) }
    ensures same { bx.new ≡ bx.old }
{
    // that its denominator is positive
    let _positive = value.den();
    let mut tested: u32 = 0;
    for one in kept.iter().rev().take(MOST_SEEN) {
        if one.may_secure(here.game, left, value) {
            if secures(here, bx, &value, &one.policy) {
                return Ok(Some(Recalled {
                    value,
                    policy: one.policy.copy(alloc)?,
                }));
            }
            if MOST_TESTED <= tested {
                return Ok(None);
            }
            tested += 1;
        }
    }
    Ok(None)
}

/// The greater of two values, where there is a first one.
fn greater(first: Option<Frac>, second: Frac) -> Frac {
    match first {
        Some(first) if is_less(second, first) => first,
        _ => second,
    }
}

/// The greatest value that one of these policies may secure where this is left.
fn greatest(game: &Game, left: &Left, kept: &[Kept]) -> Option<Frac> {
    let mut greatest = None;
    for one in kept.iter().rev().take(MOST_SEEN) {
        if left.is_roomier(&one.left) {
            greatest = Some(greater(greatest, one.value_at(game, left)));
        }
    }
    greatest
}

/// The value, but at most the cap.
fn at_most(value: Frac, cap: Option<Frac>) -> Frac {
    match cap {
        Some(cap) if is_less(cap, value) => cap,
        _ => value,
    }
}

/// One of these policies that secures the cap in the box, or else as much as may be of what reaches the floor.
fn recalled_from(
    alloc: Global,
    here: Place<'_>,
    bx: &mut Bx,
    window: &Window,
    kept: &[Kept],
) -> Result<Option<Recalled>, Memory>
    requires depth { here.depth ≤ here.game.now.wholes }
    requires bx { IsBox here.game.now.vars bx.old }
    ensures recalled { IfOk result (λ found. IfSome found (IsRecalled here.entry.game.now here.entry.rest.now here.entry.depth bx.old window.now)) }
    ensures same { bx.new ≡ bx.old }
{
    let left = Left::of(alloc, here.game, bx, here.depth)?;
    match greatest(here.game, &left, kept) {
        None => Ok(None),
        Some(value) => {
            let value = at_most(value, window.cap);
            if !reaches(value, window.floor) {
                return Ok(None);
            }
            securing(alloc, here, bx, value, &left, kept)
        }
    }
}
