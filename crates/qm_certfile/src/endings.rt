ghost use Rattle.std.specs.Prelude.{ℤ, pos, List};
ghost use Rattle.qm_math.specs.Fraction.{Fraction};
ghost use Rattle.qm_frac.specs.Lowest.{IsFrac};
ghost use Rattle.qm_model.specs.declared.game.Problem.{Problem};
ghost use Rattle.qm_model.specs.Endings.{HasEnding};
ghost use Rattle.qm_model.specs.Plays.{IsPlay};
ghost use Rattle.qm_model.specs.Sound.{IsSound};
ghost use Rattle.qm_trees.specs.declared.policy.Policy.{Policy};
ghost use Rattle.qm_trees.specs.declared.refutation.Refute.{Refute};
ghost use Rattle.qm_certfile.specs.declared.certificate.Certificate.{Certificate};
ghost use Rattle.qm_certfile.specs.declared.certificate.Certificate.TheVariants.{Optimal};
ghost use Rattle.qm_certfile.specs.Passes.{AnswersPlay, Passes, ending_of};

/// A certificate that passes tells how its problem ends, and its policy reaches the value on every universal play.
pub fn a_passing_certificate_tells_the_ending()
    ensures ending { (P : Problem) (certificate : Certificate) → IsSound P → Passes P certificate → HasEnding P (ending_of certificate) }
    ensures answers { (P : Problem) (certificate : Certificate) (us : List ℤ) → IsSound P → Passes P certificate → IsPlay P us → AnswersPlay P us certificate }
{}

/// The value of a certificate that passes is a fraction of the program, in lowest terms and in range. So none has the
/// value 4/2.
pub fn passing_values_are_in_lowest_terms()
    ensures lowest { (P : Problem) (value : Fraction) (legal : List ℤ) (policy : Policy) (refute : Refute) → Passes P (Optimal value legal policy refute) → IsFrac value }
    ensures not_four_halves { (P : Problem) (legal : List ℤ) (policy : Policy) (refute : Refute) → Passes P (Optimal (record { num = pos 4; den = 2 }) legal policy refute) → ⊥ }
{}
