ghost use Rattle.std.specs.Prelude.{◌≡◌, ℕ, ℤ, List, drop, length};
ghost use Rattle.qm_model.specs.declared.game.Problem.{Problem};
ghost use Rattle.qm_model.specs.declared.range.Range.{Range};
ghost use Rattle.qm_model.specs.declared.row.Row.{Row};
ghost use Rattle.qm_model.specs.Boxes.{whole_box_of};
ghost use Rattle.qm_model.specs.Goals.{Goal, IsProper};
ghost use Rattle.qm_model.specs.Legal.{IsLegal, IsPrefix};
ghost use Rattle.qm_model.specs.Plays.{whole_vars};
ghost use Rattle.qm_model.specs.Sound.{IsSound};
ghost use Rattle.qm_model.specs.Wins.{Wins};
ghost use Rattle.qm_trees.specs.declared.refutation.Refute.{Refute};
ghost use Rattle.qm_trees.specs.BoxPoints.{BeginIn};
ghost use Rattle.qm_trees.specs.Cuts.{HoldCuts};
ghost use Rattle.qm_trees.specs.RefuteJudgement.{Head};
ghost use Rattle.qm_trees.specs.RefuteRight.{IsRightRefutation};

/// Where a refutation of a goal is right over a box, no legal prefix within bounds whose values lie in the box wins the
/// goal. The ranges may have any width; behind the prefix they are the variables' own bounds. The cuts hold at each
/// complete legal prefix and point that meet the rows.
pub fn right_refutations_refuse()
    ensures { (P : Problem) (cuts : List Row) (heads : List Head) (G : Goal) (depth : ℕ) (bx : List Range) (tree : Refute) (prefix : List ℤ) → IsSound P → IsProper G → HoldCuts P cuts → IsRightRefutation P cuts heads G (drop depth (whole_vars P)) depth bx tree → length prefix ≡ depth → IsPrefix P prefix → BeginIn bx prefix → drop depth bx ≡ whole_box_of (drop depth P.vars) → IsLegal P prefix → Wins P prefix G → ⊥ }
{}
