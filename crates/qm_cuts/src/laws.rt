ghost use Rattle.std.specs.Prelude.{◌≡◌, ℤ, List, All};
ghost use Rattle.qm_model.specs.Legal.{IsComplete, IsPrefix};
ghost use Rattle.qm_model.specs.Points.{HoldsOver, Meets, Point, values_over};
ghost use Rattle.qm_model.specs.Sound.{IsRowOver, IsSound};
ghost use Rattle.qm_model.specs.declared.game.Problem.{Problem};
ghost use Rattle.qm_model.specs.declared.row.Row.{Row};
ghost use Rattle.qm_trees.specs.CutEntries.{AreCutEntries};
ghost use Rattle.qm_trees.specs.CutRules.{AreCuts, Derived, Gives, IsCut, derivation};
ghost use Rattle.qm_trees.specs.Cuts.{HoldCuts};
ghost use Rattle.qm_trees.specs.declared.cut_combo.CutEntry.{CutEntry};
ghost use Rattle.qm_cuts.specs.Pools.{rows_of};

/// A point that is whole on whole variables, lies in the variables' own bounds and meets the rows, the uncertainty rows
/// and the earlier cuts meets the cut.
pub fn whole_points_keep_cuts()
    ensures { (P : Problem) (earlier : List Row) (entries : List CutEntry) (cut : Row) (prefix : List ℤ) (y : Point) → IsSound P → IsPrefix P prefix → IsComplete P prefix → Meets P prefix y → All (HoldsOver y.den (values_over prefix y)) P.urows → All (HoldsOver y.den (values_over prefix y)) earlier → IsCut P earlier entries cut → HoldsOver y.den (values_over prefix y) cut }
{}

/// So cuts in their order hold wherever the rows do, which is what the soundness of refutations asks of them, and each is
/// a row over the variables.
pub fn cuts_hold()
    ensures hold { (P : Problem) (cuts : List Derived) → IsSound P → AreCuts P cuts → HoldCuts P (rows_of cuts) }
    ensures over { (P : Problem) (cuts : List Derived) → AreCuts P cuts → All (IsRowOver P.vars) (rows_of cuts) }
{}

/// A row that a derivation gives is a cut.
pub fn derivations_give_cuts()
    ensures { (P : Problem) (earlier : List Row) (entries : List CutEntry) (row : Row) → IsSound P → AreCutEntries entries → derivation P earlier entries ≡ Gives row → IsCut P earlier entries row }
{}
