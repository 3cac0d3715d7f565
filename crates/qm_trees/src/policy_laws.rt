ghost use Rattle.std.specs.Prelude.{◌≡◌, ◌↔◌, ◌≤ℤ◌, ℕ, ℤ, pos, List, [], true, Ok};
ghost use Rattle.qm_math.specs.Fraction.{Fraction, HasPositiveDen, IsAtMost};
ghost use Rattle.qm_model.specs.declared.game.Problem.{Problem};
ghost use Rattle.qm_model.specs.declared.range.Range.{Range};
ghost use Rattle.qm_model.specs.declared.variable.Var.{Var};
ghost use Rattle.qm_model.specs.Boxes.{whole_box_of};
ghost use Rattle.qm_model.specs.Goals.{AtLeast};
ghost use Rattle.qm_model.specs.Plays.{IsPlay, whole_vars};
ghost use Rattle.qm_model.specs.Sound.{IsSound};
ghost use Rattle.qm_model.specs.Wins.{Wins};
ghost use Rattle.qm_trees.specs.declared.policy.Policy.{Policy};
ghost use Rattle.qm_trees.specs.Passing.{IsFine};
ghost use Rattle.qm_trees.specs.PolicyJudgement.{judge_policy};
ghost use Rattle.qm_trees.specs.PolicyRight.{IsPolicyInRange, IsRightPolicy};
ghost use Rattle.qm_trees.specs.Reaching.{PolicyReaches};
ghost use Rattle.qm_trees.specs.Verdicts.{Verdict, answer_of};

/// A test answers yes exactly where all lines are right.
pub fn yes_means_fine()
    ensures { (verdict : Verdict) → (answer_of verdict ≡ Ok true) ↔ IsFine verdict }
{}

/// All lines of a policy are right exactly where the policy is right and no operation leaves.
pub fn fine_policies_are_right()
    ensures { (P : Problem) (v : Fraction) (xs : List Var) (depth : ℕ) (bx : List Range) (policy : Policy) → pos 1 ≤ℤ P.scale → HasPositiveDen v → IsFine (judge_policy P v xs depth bx policy) ↔ (IsRightPolicy P v xs depth bx policy × IsPolicyInRange P v xs depth bx policy) }
{}

/// A right policy is right at each value that is no greater; and whether an operation leaves doesn't depend on the
/// value.
pub fn right_policies_are_right_at_less()
    ensures right { (P : Problem) (v w : Fraction) (xs : List Var) (depth : ℕ) (bx : List Range) (policy : Policy) → HasPositiveDen v → IsAtMost w v → IsRightPolicy P v xs depth bx policy → IsRightPolicy P w xs depth bx policy }
    ensures in_range { (P : Problem) (v w : Fraction) (xs : List Var) (depth : ℕ) (bx : List Range) (policy : Policy) → IsPolicyInRange P v xs depth bx policy → IsPolicyInRange P w xs depth bx policy }
{}

/// A policy that is right over the whole box reaches its value on every universal play, and so the existential player
/// wins that value.
pub fn right_policies_win()
    ensures reaches { (P : Problem) (v : Fraction) (policy : Policy) (us : List ℤ) → IsSound P → IsRightPolicy P v (whole_vars P) 0 (whole_box_of P.vars) policy → IsPlay P us → PolicyReaches P v (whole_vars P) [] us policy }
    ensures wins { (P : Problem) (v : Fraction) (policy : Policy) → IsSound P → IsRightPolicy P v (whole_vars P) 0 (whole_box_of P.vars) policy → Wins P [] (AtLeast v) }
{}
