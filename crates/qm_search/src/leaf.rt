ghost use Rattle.std.specs.Prelude.{◌≡◌, ◌↔◌, ℕ, [], All, Any, IfErr, IfOk, IsTrue, None, Ok, length, true};
ghost use Rattle.qm_game.specs.Dead.{IsFirstDead};
ghost use Rattle.qm_model.specs.Boxes.{IsBox, IsEmptyRange};
ghost use Rattle.qm_trees.specs.declared.combination.ComboValue.TheVariants.{Bound};
ghost use Rattle.qm_trees.specs.Evaluation.{value_of};
ghost use Rattle.qm_math.specs.Fraction.{Fraction};
ghost use Rattle.qm_simplex.specs.RightLeaves.{AllShorter};
ghost use Rattle.qm_search.specs.Entering.{IsEnterable};
ghost use Rattle.qm_search.specs.OutcomeSteps.{IsPlayed};
ghost use Rattle.qm_search.specs.PlaceSteps.{IsEndPlace, IsSingle, prefix_in};
ghost use Rattle.qm_search.specs.StopSteps.{IsLeafStop};

use crate::mixed::mixed_leaf;
use crate::played::Played;
use crate::stop::Stop;
use qm_combo::value;
use qm_frac::Frac;
use qm_game::{Bx, Game};
use qm_io::List;
use qm_trees::{Combo, ComboValue, Policy, Refute};
use std::alloc::Global;

/// The bound of a combination with the objective.
fn bound_in(value: ComboValue) -> Frac
    ensures { (bound : Fraction) → value ≡ Bound bound → result ≡ bound }
{
    match value {
        ComboValue::Bound(bound) => bound,
        _ => Frac::whole(0),
    }
}

/// The bound that the objective alone gives over the box. No operation leaves, as all numbers are whole and small.
fn objective_bound(game: &Game, bx: &Bx, combo: &Combo) -> Frac
    requires bx { IsBox game.now.vars bx.now }
    requires combo { combo.now ≡ record { objective = true; entries = [] } }
    ensures { value_of game.now true [] bx.now ≡ Ok (Bound result) }
{
    // that the problem is in order
    let _problem = game.problem();
    match value(game, &[], bx, combo) {
        Ok(value) => bound_in(value),
        Err(_) => Frac::whole(0),
    }
}

/// Whether no variable is continuous.
fn is_all_whole(game: &Game) -> bool
    ensures { IsTrue result ↔ (game.now.wholes ≡ length game.now.vars) }
{
    let problem = game.problem();
    problem.wholes as usize == problem.vars.len()
}

/// What the box comes to where all variables are set and no row is dead: the objective alone bounds it.
fn whole_leaf(alloc: Global, game: &Game, bx: &Bx) -> Played
    requires all_whole { game.now.wholes ≡ length game.now.vars }
    requires bx { IsBox game.now.vars bx.now }
    requires set { All IsSingle bx.now }
    requires alive { IsFirstDead game.now bx.now None }
    ensures { (depth : ℕ) → IsPlayed game.now [] [] [] depth bx.now result }
{
    // that the problem is in order
    let _problem = game.problem();
    let combo = Combo::new(alloc, true);
    let bound = objective_bound(game, bx, &combo);
    // that its denominator is positive
    let _positive = bound.den();
    Played::Reached {
        value: bound,
        policy: Policy::Leaf {
            point: List::new(alloc),
        },
        refute: Refute::Close(combo),
    }
}

/// What the box comes to where all whole variables are set, no range is empty and no row is dead: the objective alone
/// tells it where no variable is continuous, else its leaf run.
pub fn leaf(alloc: Global, game: &Game, bx: &Bx) -> Result<Played, Stop>
    requires place { IsEndPlace game.now bx.now }
    requires full { Any IsEmptyRange bx.now → ⊥ }
    requires alive { IsFirstDead game.now bx.now None }
    requires entered { AllShorter (IsEnterable game.now) (prefix_in game.now bx.now) }
    ensures played { (depth : ℕ) → IfOk result (IsPlayed game.now [] [] [] depth bx.now) }
    ensures stop { IfErr result (IsLeafStop game.now) }
{
    if is_all_whole(game) {
        return Ok(whole_leaf(alloc, game, bx));
    }
    mixed_leaf(alloc, game, bx)
}
