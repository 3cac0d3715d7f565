ghost use Rattle.std.specs.Prelude.{◌↔◌, ◌≤ℤ◌, ℕ, pos, List};
ghost use Rattle.qm_model.specs.declared.game.Problem.{Problem};
ghost use Rattle.qm_model.specs.declared.range.Range.{Range};
ghost use Rattle.qm_model.specs.declared.row.Row.{Row};
ghost use Rattle.qm_model.specs.declared.variable.Var.{Var};
ghost use Rattle.qm_model.specs.Goals.{Goal, IsNoHarder, IsProper};
ghost use Rattle.qm_trees.specs.declared.refutation.Refute.{Refute};
ghost use Rattle.qm_trees.specs.Passing.{IsFine};
ghost use Rattle.qm_trees.specs.RefuteJudgement.{Head, judge_refute};
ghost use Rattle.qm_trees.specs.RefuteRight.{IsRefutationInRange, IsRightRefutation};

/// All lines of a refutation are right exactly where the refutation is right and no operation leaves.
pub fn fine_refutations_are_right()
    ensures { (P : Problem) (cuts : List Row) (heads : List Head) (G : Goal) (xs : List Var) (depth : ℕ) (bx : List Range) (tree : Refute) → pos 1 ≤ℤ P.scale → IsProper G → IsFine (judge_refute P cuts heads G xs depth bx tree) ↔ (IsRightRefutation P cuts heads G xs depth bx tree × IsRefutationInRange P cuts heads G xs depth bx tree) }
{}

/// A right refutation of a goal is one of each goal that is no easier; and whether an operation leaves doesn't depend
/// on the goal.
pub fn right_refutations_refute_harder_goals()
    ensures right { (P : Problem) (cuts : List Row) (heads : List Head) (G H : Goal) (xs : List Var) (depth : ℕ) (bx : List Range) (tree : Refute) → pos 1 ≤ℤ P.scale → IsProper G → IsProper H → IsNoHarder G H → IsRightRefutation P cuts heads G xs depth bx tree → IsRightRefutation P cuts heads H xs depth bx tree }
    ensures in_range { (P : Problem) (cuts : List Row) (heads : List Head) (G H : Goal) (xs : List Var) (depth : ℕ) (bx : List Range) (tree : Refute) → IsRefutationInRange P cuts heads G xs depth bx tree → IsRefutationInRange P cuts heads H xs depth bx tree }
{}
