ghost use Rattle.std.specs.Prelude.{◌≡◌, ◌↔◌, ◌∷◌, ◌++◌, [], All, List, length, drop, ℤ};
ghost use Rattle.qm_model.specs.declared.variable.Player.TheVariants.{Exists, All as Universal};
ghost use Rattle.qm_model.specs.declared.variable.Var.{Var};
ghost use Rattle.qm_model.specs.declared.game.Problem.{Problem};
ghost use Rattle.qm_model.specs.Legal.{AgreesWithPlay, IsComplete, IsLegal};
ghost use Rattle.qm_model.specs.Points.{HoldsOver, Point, values_over};
ghost use Rattle.qm_model.specs.Goals.{Goal, IsNoHarder, IsProper};
ghost use Rattle.qm_model.specs.Plays.{AreWithin, IsWithin, whole_vars};
ghost use Rattle.qm_model.specs.Wins.{Wins, WinsAtEnd, WinsFrom};
ghost use Rattle.qm_model.specs.Endings.{Ending, HasEnding, IsSameEnding};
ghost use Rattle.qm_model.specs.Sound.{IsSound};

/// The test of a prefix passes exactly where some universal play agrees with its universal values.
pub fn legal_means_some_play_agrees()
    ensures { (P : Problem) (prefix : List ℤ) → IsLegal P prefix ↔ AgreesWithPlay P prefix }
{}

/// A legal prefix goes on: it stays legal with any value of an existential variable, and with some value of a
/// universal one within its bounds.
pub fn a_legal_prefix_goes_on()
    ensures exists { (P : Problem) (prefix : List ℤ) (x : Var) (later : List Var) (v : ℤ) → drop (length prefix) (whole_vars P) ≡ x ∷ later → x.player ≡ Exists → IsLegal P prefix → IsLegal P (prefix ++ v ∷ []) }
    ensures universal { (P : Problem) (prefix : List ℤ) (x : Var) (later : List Var) → drop (length prefix) (whole_vars P) ≡ x ∷ later → x.player ≡ Universal → IsLegal P prefix → (v : ℤ) × IsWithin x v × IsLegal P (prefix ++ v ∷ []) }
{}

/// A legal prefix that wins a goal has a complete legal extension within bounds that wins it.
pub fn a_winning_prefix_is_completed()
    ensures { (P : Problem) (G : Goal) (xs : List Var) (prefix : List ℤ) → drop (length prefix) (whole_vars P) ≡ xs → IsLegal P prefix → WinsFrom P G xs prefix → (rest : List ℤ) × AreWithin xs rest × IsLegal P (prefix ++ rest) × WinsAtEnd P (prefix ++ rest) G }
{}

/// Where a legal prefix sets all whole variables, each uncertainty row holds, also over a denominator and whatever the
/// continuous variables are.
pub fn legal_prefixes_meet_uncertainty_rows()
    ensures { (P : Problem) (prefix : List ℤ) (y : Point) → IsSound P → IsComplete P prefix → IsLegal P prefix → All (HoldsOver y.den (values_over prefix y)) P.urows }
{}

/// Who wins a goal wins each goal that is no harder.
pub fn an_easier_goal_is_won()
    ensures { (P : Problem) (prefix : List ℤ) (G H : Goal) → IsSound P → IsProper G → IsProper H → IsNoHarder G H → Wins P prefix H → Wins P prefix G }
{}

/// A problem has at most one ending.
pub fn a_problem_has_one_ending()
    ensures { (P : Problem) (e f : Ending) → IsSound P → HasEnding P e → HasEnding P f → IsSameEnding e f }
{}
