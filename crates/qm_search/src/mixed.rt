ghost use Rattle.std.specs.Prelude.{◌≡◌, ◌<◌, ◌≤◌, ℕ, [], Any, IfErr, IfOk, None, length};
ghost use Rattle.qm_game.specs.Dead.{IsFirstDead};
ghost use Rattle.qm_model.specs.Boxes.{IsEmptyRange};
ghost use Rattle.qm_simplex.specs.LeafRuns.{IsLeafRun, leaf_point};
ghost use Rattle.qm_trees.specs.declared.policy.Policy.{Leaf};
ghost use Rattle.qm_search.specs.StopSteps.{IsLeafStop};
ghost use Rattle.qm_simplex.specs.RightLeaves.{AllShorter};
ghost use Rattle.qm_search.specs.Entering.{IsEnterable};
ghost use Rattle.qm_search.specs.LeafSteps.{IsLeafEnd, IsRunFault};
ghost use Rattle.qm_search.specs.OutcomeSteps.{IsPlayed};
ghost use Rattle.qm_search.specs.PlaceSteps.{IsEndPlace, prefix_in};

use crate::fault::Leave;
use crate::leaf_run::leaf_run;
use crate::played::Played;
use crate::stop::Stop;
use qm_frac::Frac;
use qm_game::{Bx, Game};
use qm_io::{List, Memory};
use qm_simplex::{LpEnd, LpFault};
use qm_trees::{Policy, Refute, values_are_fractions};
use std::alloc::Global;

/// The leaf of a point: its values of the continuous variables.
fn leaf_of(alloc: Global, game: &Game, point: &[Frac]) -> Result<Policy, Memory>
    requires { game.now.wholes ≤ length point.now }
    ensures { IfOk result (λ policy. policy ≡ Leaf (leaf_point game.now point.now)) }
{
    let mut values = List::new(alloc);
    values.append(&point[game.problem().wholes as usize..])?;
    Ok(Policy::Leaf { point: values })
}

/// The values that are set, in order.
fn prefix_of(alloc: Global, game: &Game, bx: &Bx) -> Result<List<i64>, Memory>
    requires { game.now.wholes ≤ length bx.now }
    ensures { IfOk result (λ prefix. prefix ≡ prefix_in game.now bx.now) }
{
    let set = &bx.as_slice()[..game.problem().wholes as usize];
    let mut prefix = List::new(alloc);
    for range in set {
        prefix.push(range.low)?;
    }
    Ok(prefix)
}

/// What the end of the leaf run comes to: its point is a leaf at its value, and its combination refutes anything above;
/// or its combination alone refutes that the rows can be met.
fn end_leaf(alloc: Global, game: &Game, bx: &Bx, end: LpEnd) -> Result<Played, Memory>
    requires place { IsEndPlace game.now bx.now }
    requires end { IsLeafEnd game.now bx.now end }
    ensures { (depth : ℕ) → IfOk result (IsPlayed game.now [] [] [] depth bx.now) }
{
    match end {
        LpEnd::Void { combo, pivots: _ } => {
            // that it is well formed
            let _void_form = combo.entries();
            Ok(Played::Lost(Refute::Close(combo)))
        }
        LpEnd::Best {
            point,
            value,
            combo,
            pivots: _,
        } => {
            // that it is well formed, and that the values are fractions
            let _best_form = combo.entries();
            let _positive = value.den();
            let values = point.as_slice();
            values_are_fractions(values);
            Ok(Played::Reached {
                value,
                policy: leaf_of(alloc, game, values)?,
                refute: Refute::Close(combo),
            })
        }
    }
}

/// Why the leaf run has no end.
fn run_stop(alloc: Global, game: &Game, bx: &Bx, fault: LpFault) -> Stop
    requires place { IsEndPlace game.now bx.now }
    requires mixed { game.now.wholes < length game.now.vars }
    requires full { Any IsEmptyRange bx.now → ⊥ }
    requires alive { IsFirstDead game.now bx.now None }
    requires entered { AllShorter (IsEnterable game.now) (prefix_in game.now bx.now) }
    requires run { IsRunFault game.now bx.now fault }
    ensures { IsLeafStop game.now result }
{
    match fault {
        LpFault::Memory => Stop::Memory,
        LpFault::Leaves(run) => match prefix_of(alloc, game, bx) {
            Ok(prefix) => Stop::Leave(Leave { prefix, run }),
            Err(_) => Stop::Memory,
        },
    }
}

/// What the box comes to where all whole variables are set and others are not, no range is empty and no row is dead: what
/// its leaf run tells.
pub fn mixed_leaf(alloc: Global, game: &Game, bx: &Bx) -> Result<Played, Stop>
    requires place { IsEndPlace game.now bx.now }
    requires mixed { game.now.wholes < length game.now.vars }
    requires full { Any IsEmptyRange bx.now → ⊥ }
    requires alive { IsFirstDead game.now bx.now None }
    requires entered { AllShorter (IsEnterable game.now) (prefix_in game.now bx.now) }
    ensures played { (depth : ℕ) → IfOk result (IsPlayed game.now [] [] [] depth bx.now) }
    ensures stop { IfErr result (IsLeafStop game.now) }
{
    match leaf_run(alloc, game, bx) {
        Ok(end) => Ok(end_leaf(alloc, game, bx, end)?),
        Err(fault) => Err(run_stop(alloc, game, bx, fault)),
    }
}
