ghost use Rattle.std.specs.Prelude.{◌≡◌, ℕ, List, Any, Ok, false};
ghost use Rattle.qm_model.specs.declared.range.Range.{Range};
ghost use Rattle.qm_model.specs.declared.row.Row.{Row};
ghost use Rattle.qm_model.specs.declared.game.Problem.{Problem};
ghost use Rattle.qm_model.specs.Boxes.{IsEmptyRange};
ghost use Rattle.qm_model.specs.Sound.{IsSound};
ghost use Rattle.qm_tableau.specs.declared.choice.Choice.TheVariants as choice;
ghost use Rattle.qm_tableau.specs.Good.{IsGood};
ghost use Rattle.qm_tableau.specs.Rule.{chosen};
ghost use Rattle.qm_tableau.specs.Tables.{Table};
ghost use Rattle.qm_trees.specs.Entries.{AreEntries};
ghost use Rattle.qm_simplex.specs.declared.answers.LpEnd.{LpEnd};
ghost use Rattle.qm_simplex.specs.Ends.{IsRightEnd, IsVoid};
ghost use Rattle.qm_simplex.specs.Multipliers.{closing_combination, closing_entries};
ghost use Rattle.qm_simplex.specs.Stops.{IsRunFrom, best_at};

/// Where the rule names no row of a good tableau, or one that can't be raised, the multipliers of the slacks are entries of
/// a combination: above 0, and in the order of the rows.
#[tactic(auto, using(crate::proofs::ClosingEntries::best_entries, crate::proofs::ClosingEntries::void_entries))]
pub fn closing_entries_are_entries()
    ensures best { (P : Problem) (cuts : List Row) (bx : List Range) (t : Table) → IsGood P cuts bx t →
        AreEntries (closing_entries P cuts bx t 0) }
    ensures void { (P : Problem) (cuts : List Row) (bx : List Range) (t : Table) (r : ℕ) → IsGood P cuts bx t →
        chosen t ≡ Ok (choice.VoidRow r) → AreEntries (closing_entries P cuts bx t r) }
{}

/// Where the rule names no row of a good tableau, the point is in the relaxation and has the value, and the combination
/// bounds the objective by exactly the value.
#[tactic(auto, using(crate::proofs::Endings::best_end))]
pub fn best_ends_are_best()
    ensures { (P : Problem) (cuts : List Row) (bx : List Range) (t : Table) (pivots : ℕ) (end : LpEnd) → IsSound P →
        (Any IsEmptyRange bx → ⊥) → IsGood P cuts bx t →
        chosen t ≡ Ok choice.Done → best_at P cuts bx pivots t ≡ Ok end → IsRightEnd P cuts bx end }
{}

/// Where the row that the rule names can't be raised to 0, the combination contradicts the box.
#[tactic(auto, using(crate::proofs::Endings::void_end))]
pub fn void_ends_are_void()
    ensures { (P : Problem) (cuts : List Row) (bx : List Range) (t : Table) (r : ℕ) → (Any IsEmptyRange bx → ⊥) →
        IsGood P cuts bx t → chosen t ≡ Ok (choice.VoidRow r) →
        IsVoid P cuts bx (closing_combination P cuts bx t false r) }
{}

/// The end of a run from a good tableau is right: a best point and a bound of the objective by the same value, or a
/// combination that contradicts the box.
pub fn ends_of_runs_are_right()
    ensures { (P : Problem) (cuts : List Row) (bx : List Range) (t : Table) (end : LpEnd) → IsSound P →
        (Any IsEmptyRange bx → ⊥) → IsGood P cuts bx t → IsRunFrom P cuts bx t (Ok end) → IsRightEnd P cuts bx end }
{}
