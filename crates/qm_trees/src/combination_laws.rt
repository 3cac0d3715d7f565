ghost use Rattle.std.specs.Prelude.{◌≡◌, ◌↔◌, ◌<◌, ◌≤ℤ◌, ℕ, drop, map, ℤ, pos, Bool, true, false, List, All, Ok, IsOk};
ghost use Rattle.qm_math.specs.Fraction.{Fraction, HasPositiveDen, whole, IsAtMost, IsBelow, IsSame};
ghost use Rattle.qm_math.specs.Over.{over};
ghost use Rattle.qm_model.specs.declared.row.Row.{Row};
ghost use Rattle.qm_model.specs.Points.{HoldsOver, Meets, Point, continuous_vars, objective_at, values_over};
ghost use Rattle.qm_model.specs.declared.game.Problem.{Problem};
ghost use Rattle.qm_model.specs.declared.range.Range.{Range};
ghost use Rattle.qm_model.specs.Boxes.{whole_box_of};
ghost use Rattle.qm_model.specs.Goals.{Goal, IsNoHarder, IsProper, Reaches};
ghost use Rattle.qm_model.specs.Legal.{IsComplete};
ghost use Rattle.qm_model.specs.Sound.{IsSound};
ghost use Rattle.qm_trees.specs.declared.combination.ComboValue.TheVariants.{Nothing, Void, Bound};
ghost use Rattle.qm_trees.specs.Entries.{Combination, IsPositive, Weighted, weighted_rows};
ghost use Rattle.qm_trees.specs.Evaluation.{right_side, least_combined, bound_of, value_of};
ghost use Rattle.qm_trees.specs.Closing.{Closes, closing};
ghost use Rattle.qm_trees.specs.BoxPoints.{BeginIn, IsInBox, HoldsAt, objective_of};

/// The value of a combination, where no operation leaves, is what the exact sums say.
pub fn combination_values_are_exact()
    ensures void { (P : Problem) (ws : List Weighted) (bx : List Range) → All (λ w. HasPositiveDen w.by) ws → value_of P false ws bx ≡ Ok Void → IsBelow (right_side P false ws) (least_combined P false ws bx) }
    ensures nothing { (P : Problem) (ws : List Weighted) (bx : List Range) → All (λ w. HasPositiveDen w.by) ws → value_of P false ws bx ≡ Ok Nothing → IsAtMost (least_combined P false ws bx) (right_side P false ws) }
    ensures bound { (P : Problem) (ws : List Weighted) (bx : List Range) (w : Fraction) → All (λ w. HasPositiveDen w.by) ws → pos 1 ≤ℤ P.scale → value_of P true ws bx ≡ Ok (Bound w) → IsSame w (bound_of P ws bx) }
{}

/// The test answers yes exactly where the combination closes the goal and no operation leaves.
pub fn closing_is_exact()
    ensures { (P : Problem) (objective : Bool) (ws : List Weighted) (bx : List Range) (G : Goal) → All (λ w. HasPositiveDen w.by) ws → pos 1 ≤ℤ P.scale → IsProper G → (closing P objective ws bx G ≡ Ok true) ↔ (Closes P objective ws bx G × IsOk (closing P objective ws bx G)) }
{}

/// Multipliers that are not negative: at each point of the box where the rows hold, the least combined value is at
/// most the right side, and the objective at most the bound; and no such point reaches a goal that is closed. This is
/// the half of Farkas' lemma by which combinations prove something.
pub fn combinations_are_sound()
    ensures rows { (P : Problem) (bx : List Range) (xs : List Fraction) (ws : List Weighted) → IsInBox bx xs → All (λ w. HasPositiveDen w.by) ws → All (λ w. IsAtMost (whole (pos 0)) w.by) ws → All (λ w. HoldsAt xs w.row) ws → IsAtMost (least_combined P false ws bx) (right_side P false ws) }
    ensures bound { (P : Problem) (bx : List Range) (xs : List Fraction) (ws : List Weighted) → pos 1 ≤ℤ P.scale → IsInBox bx xs → All (λ w. HasPositiveDen w.by) ws → All (λ w. IsAtMost (whole (pos 0)) w.by) ws → All (λ w. HoldsAt xs w.row) ws → IsAtMost (objective_of P xs) (bound_of P ws bx) }
    ensures closes { (P : Problem) (bx : List Range) (xs : List Fraction) (ws : List Weighted) (objective : Bool) (G : Goal) → pos 1 ≤ℤ P.scale → IsProper G → IsInBox bx xs → All (λ w. HasPositiveDen w.by) ws → All (λ w. IsAtMost (whole (pos 0)) w.by) ws → All (λ w. HoldsAt xs w.row) ws → Closes P objective ws bx G → Reaches (objective_of P xs) G → ⊥ }
{}

/// A combination that closes a goal closes each goal that is no easier.
pub fn closing_closes_harder_goals()
    ensures { (P : Problem) (objective : Bool) (ws : List Weighted) (bx : List Range) (G H : Goal) → All (λ w. HasPositiveDen w.by) ws → pos 1 ≤ℤ P.scale → IsProper G → IsProper H → IsNoHarder G H → Closes P objective ws bx G → Closes P objective ws bx H }
{}

/// A row holds at numerators over one denominator exactly where it holds at the fractions.
pub fn rows_hold_over_one_denominator()
    ensures { (d : ℕ) (ns : List ℤ) (row : Row) → 0 < d → HoldsAt (map (over d) ns) row ↔ HoldsOver d ns row }
{}

/// A complete prefix in the box, and a point that with it meets the rows and reaches the goal: then no combination of
/// rows that hold there closes the goal over the box.
pub fn closed_goals_are_out_of_reach()
    ensures { (P : Problem) (cuts : List Row) (combo : Combination) (bx : List Range) (G : Goal) (prefix : List ℤ) (y : Point) → IsSound P → IsProper G → IsComplete P prefix → BeginIn bx prefix → drop P.wholes bx ≡ whole_box_of (continuous_vars P) → Meets P prefix y → All (HoldsOver y.den (values_over prefix y)) P.urows → All (HoldsOver y.den (values_over prefix y)) cuts → Reaches (objective_at P prefix y) G → All IsPositive combo.entries → Closes P combo.objective (weighted_rows P cuts combo.entries) bx G → ⊥ }
{}
