ghost use Rattle.std.specs.Prelude.{◌≡◌, ◌<◌, ◌^◌};
ghost use Rattle.qm_model.specs.declared.game.Problem.{Problem};
ghost use Rattle.qm_model.specs.Sound.{IsSound};
ghost use Rattle.qm_certfile.specs.declared.certificate.Certificate.{Certificate};
ghost use Rattle.qm_certfile.specs.CertificateLines.{certificate_text};
ghost use Rattle.qm_certfile.specs.Numbers.{greatest_number};
ghost use Rattle.qm_certfile.specs.WellFormed.{HasNearBounds, IsWellFormed};
ghost use Rattle.qm_certfile.specs.Passes.{Passes};

/// Different certificates have different texts, where no number of theirs has more than 64 digits.
pub fn different_certificates_have_different_texts()
    ensures { (P : Problem) (c d : Certificate) → greatest_number c < 10 ^ 64 → greatest_number d < 10 ^ 64 → certificate_text P c ≡ certificate_text P d → c ≡ d }
{}

/// Different certificates whose numbers are all of their types have different texts.
pub fn different_well_formed_certificates_have_different_texts()
    ensures { (P : Problem) (c d : Certificate) → IsWellFormed c → IsWellFormed d → certificate_text P c ≡ certificate_text P d → c ≡ d }
{}

/// A certificate that passes is well formed: all that it is made of is of its type. So its text has no other
/// certificate that passes. The problem's bounds are near 0, as those of every problem that is read.
pub fn passing_certificates_are_well_formed()
    ensures formed { (P : Problem) (c : Certificate) → IsSound P → HasNearBounds P → Passes P c → IsWellFormed c }
    ensures one { (P : Problem) (c d : Certificate) → IsSound P → HasNearBounds P → Passes P c → Passes P d → certificate_text P c ≡ certificate_text P d → c ≡ d }
{}
