ghost use Rattle.std.specs.Prelude.{◌↔◌, ℕ, ℤ, List};
ghost use Rattle.qm_model.specs.declared.game.Problem.{Problem};
ghost use Rattle.qm_model.specs.declared.range.Range.{Range};
ghost use Rattle.qm_model.specs.declared.variable.Var.{Var};
ghost use Rattle.qm_model.specs.Plays.{IsPlay, whole_vars};
ghost use Rattle.qm_model.specs.Sound.{IsSound};
ghost use Rattle.qm_trees.specs.declared.empty.Empty.{Empty};
ghost use Rattle.qm_trees.specs.EmptyJudgement.{judge_empty};
ghost use Rattle.qm_trees.specs.EmptyRight.{IsEmptyInRange, IsRightEmpty};
ghost use Rattle.qm_trees.specs.Passing.{IsFine};
ghost use Rattle.qm_trees.specs.Picks.{Fit};

/// All lines of a tree are right exactly where the tree is right and no operation leaves.
pub fn fine_empty_trees_are_right()
    ensures { (P : Problem) (xs : List Var) (depth : ℕ) (bx : List Range) (tree : Empty) → IsFine (judge_empty P xs depth bx tree) ↔ (IsRightEmpty P xs depth bx tree × IsEmptyInRange P xs depth bx tree) }
{}

/// A right tree leaves no universal play whose values lie in its box.
pub fn right_empty_trees_leave_no_play()
    ensures { (P : Problem) (bx : List Range) (tree : Empty) (us : List ℤ) → IsSound P → IsRightEmpty P (whole_vars P) 0 bx tree → IsPlay P us → Fit (whole_vars P) bx us → ⊥ }
{}
