ghost use Rattle.std.specs.Prelude.{◌≡◌, ◌≤◌, ◌⊎◌, ℕ, List, length};
ghost use Rattle.qm_model.specs.declared.game.Problem.{Problem};
ghost use Rattle.qm_normal.specs.Stated.{States};
ghost use Rattle.qm_certfile.specs.declared.certificate.Certificate.{Certificate};
ghost use Rattle.qm_certfile.specs.CertificateLines.{certificate_text};
ghost use Rattle.qm_certfile.specs.Passes.{Passes};
ghost use Rattle.qm_check.specs.Checking.{numbered_fault};
ghost use Rattle.qm_check.specs.Texts.{IsFine};
ghost use Rattle.qm_top.specs.Answers.{Claims};
ghost use Rattle.qm_top.specs.Refusals.{Refuses};

use qm_text::one_decimal_a_word;

/// Whatever the bytes, they state a problem or are refused with a status and a text, and not both; and they are refused
/// with one status and one text.
pub fn stated_or_refused()
    ensures some { (bytes : List ℕ) → ((P : Problem) × States bytes P) ⊎ ((status : ℕ) × (text : List ℕ) × Refuses bytes status text) }
    ensures not_both { (bytes : List ℕ) (P : Problem) (status : ℕ) (text : List ℕ) → States bytes P → ¬ Refuses bytes status text }
    ensures once { (bytes : List ℕ) (status other : ℕ) (text another : List ℕ) →
        Refuses bytes status text → Refuses bytes other another → (status ≡ other) × (text ≡ another) }
{
    one_decimal_a_word();
}

/// What is printed with status 0 has one certificate: two that pass for the problem that the bytes state and have the
/// same text are the same.
pub fn a_printed_text_has_one_certificate()
    ensures passing { (bytes : List ℕ) (P : Problem) (c d : Certificate) →
        States bytes P → Passes P c → Passes P d → certificate_text P c ≡ certificate_text P d → c ≡ d }
    ensures claimed { (bytes : List ℕ) (P : Problem) (text : List ℕ) → States bytes P → (one other : Claims P text) → one.certificate ≡ other.certificate }
{}

/// What `solve` prints with status 0 is accepted by `check`, where it has at most as many bytes as a certificate may have:
/// no line is at fault in a text that shows its claim about the problem that the bytes state. And a text without fault
/// shows its claim, whatever its length.
pub fn a_text_has_no_fault_where_it_shows_its_claim()
    ensures accepted { (bytes : List ℕ) (P : Problem) (text : List ℕ) → States bytes P → length text ≤ 268435456 → Claims P text → IsFine (numbered_fault P text) }
    ensures shown { (bytes : List ℕ) (P : Problem) (text : List ℕ) → States bytes P → IsFine (numbered_fault P text) → Claims P text }
{}
