ghost use Rattle.std.specs.Prelude.{◌↔◌, ℕ, ◌<◌, ◌^◌, List, length};
ghost use Rattle.qm_model.specs.declared.game.Problem.{Problem};
ghost use Rattle.qm_model.specs.declared.row.Row.{Row};
ghost use Rattle.qm_model.specs.Sound.{IsSound};
ghost use Rattle.qm_trees.specs.RefuteJudgement.{Head};
ghost use Rattle.qm_certfile.specs.WellFormed.{HasNearBounds};
ghost use Rattle.qm_certread.specs.Examples.{AreJudgedSo};
ghost use Rattle.qm_certread.specs.Reading.{IsInForm, IsOfCertificate};
ghost use Rattle.qm_certread.specs.Judgements.{CertificatesAreJudged, EmptyTreesAreJudged, HasNoFault, IsOfPassing, IsOfPassingFit, PoliciesAreJudged, RefutationsAreJudged};

/// A text is in form exactly where it is the text of a certificate that fits the game, whatever its rules.
pub fn texts_in_form_are_those_of_certificates_that_fit()
    ensures { (P : Problem) (text : List ℕ) → IsSound P → IsInForm P text ↔ IsOfCertificate P text }
{}

/// The lines of a tree that fits its place are judged as the tree is, line for line, and then what stands behind them.
pub fn trees_are_judged_line_for_line()
    ensures policies { (P : Problem) (cuts : List Row) (heads : List Head) → IsSound P → PoliciesAreJudged P cuts heads }
    ensures refutations { (P : Problem) (cuts : List Row) (heads : List Head) → IsSound P → RefutationsAreJudged P cuts heads }
    ensures empty_trees { (P : Problem) (cuts : List Row) (heads : List Head) → IsSound P → EmptyTreesAreJudged P cuts heads }
{}

/// The first fault of the text of a certificate that fits the game is that of its judgement, line for line.
pub fn certificates_are_judged_line_for_line()
    ensures { (P : Problem) → IsSound P → CertificatesAreJudged P }
{}

/// A text has no fault exactly where it is the text of a certificate that fits the game and passes; or of one that passes,
/// where it has fewer than 2^32 bytes, so that no count in it leaves its type, and the bounds are near 0, as those of every
/// problem that is read.
pub fn texts_without_fault_are_those_of_passing_certificates()
    ensures fitting { (P : Problem) (text : List ℕ) → IsSound P → HasNoFault P text ↔ IsOfPassingFit P text }
    ensures short { (P : Problem) (text : List ℕ) → IsSound P → HasNearBounds P → length text < 2 ^ 32 → HasNoFault P text ↔ IsOfPassing P text }
{}

/// The first faults of docs/CERTIFICATE.md's example, evaluated.
pub fn the_worked_example_has_these_faults()
    ensures { AreJudgedSo }
{}
