ghost use Rattle.std.specs.Prelude.{◌≡◌, ◌++◌, ℕ, ℤ, List, drop, length, take};
ghost use Rattle.qm_model.specs.declared.range.Range.{Range};
ghost use Rattle.qm_model.specs.declared.game.Problem.{Problem};
ghost use Rattle.qm_model.specs.Plays.{whole_vars};
ghost use Rattle.qm_trees.specs.Picks.{fixed, universal_count};
ghost use Rattle.qm_relax.specs.Scenarios.{fixed_last};

/// From each depth from which on as many universal variables are left as there are values, fixing these at the values gives
/// the box of the scenario.
#[tactic(auto, using(crate::proofs::ScenarioDepths::fixed_from_depth))]
pub fn scenarios_are_fixed_from_each_such_depth()
    ensures { (P : Problem) (bx : List Range) (us : List ℤ) (depth : ℕ) → universal_count (drop depth (whole_vars P)) ≡ length us →
        take depth bx ++ fixed (drop depth (whole_vars P)) (drop depth bx) us ≡ fixed_last P bx us }
{}
