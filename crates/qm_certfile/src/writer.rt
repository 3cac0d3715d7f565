ghost use Rattle.std.specs.Prelude.{◌≡◌, ◌++◌, ◌∷◌, [], codes, OnOk, IfOk};
ghost use Rattle.qm_text.specs.Numbers.{number_word};
ghost use Rattle.qm_certfile.specs.Lines.{line_text, text_of};
ghost use Rattle.qm_certfile.specs.Styles.{first_style};
ghost use Rattle.qm_certfile.specs.TreeLines.{illegal_lines, refute_lines};
ghost use Rattle.qm_certfile.specs.CertificateLines.{alone, certificate_text, claimed, legal_line, version_line};

use crate::Certificate;
use crate::empty_trees::write_illegal;
use crate::lines::{write_alone, write_legal};
use crate::trees::{write_policy, write_refute};
use qm_frac::Frac;
use qm_io::{List, Memory};
use qm_model::{Game, Sense};
use qm_text::write_frac;
use qm_trees::{Empty, Refute};
use std::alloc::Global;

/// The text of a certificate in version 1. `Memory`, where there is none for it.
pub fn write(alloc: Global, game: &Game, certificate: &Certificate) -> Result<List<u8>, Memory>
    ensures { IfOk result (λ text. text ≡ certificate_text game.now certificate.now) }
{
    let mut text = List::new(alloc);
    write_onto(game, certificate, &mut text)?;
    Ok(text)
}

/// Appends the text of a certificate.
fn write_onto(game: &Game, certificate: &Certificate, out: &mut List<u8>) -> Result<(), Memory>
    ensures { OnOk result (out.new ≡ out.old ++ certificate_text game.now certificate.now) }
{
    match certificate {
        Certificate::Optimal {
            value,
            legal,
            policy,
            refute,
        } => {
            write_optimal(claimed(game.problem().sense, *value), out)?;
            write_begin(legal.as_slice(), out)?;
            write_alone(b"policy", out)?;
            write_policy(policy, out)?;
            write_refutation(refute, out)
        }
        Certificate::Infeasible { legal, refute } => {
            write_alone(b"infeasible", out)?;
            write_begin(legal.as_slice(), out)?;
            write_refutation(refute, out)
        }
        Certificate::Empty(tree) => write_no_play(tree, out),
    }
}

/// A value of the maximised problem, in the sense of the file.
#[tactic(auto, unfolding(qm_math::specs::Arithmetic::negated))]
pub fn claimed(sense: Sense, value: Frac) -> Frac
    ensures { result ≡ claimed sense value }
{
    match sense {
        Sense::Max => value,
        Sense::Min => value.neg(),
    }
}

/// Appends the line that claims a value.
fn write_optimal(value: Frac, out: &mut List<u8>) -> Result<(), Memory>
    ensures { OnOk result (out.new ≡ out.old ++ line_text (codes "optimal" ∷ number_word value ∷ [])) }
{
    out.append(b"optimal ")?;
    write_frac(value, out)?;
    out.push(b'\n')
}

/// Appends the lines of the version and of the universal play.
fn write_begin(legal: &[i64], out: &mut List<u8>) -> Result<(), Memory>
    ensures { OnOk result (out.new ≡ out.old ++ text_of (version_line first_style ∷ legal_line first_style legal.now ∷ [])) }
{
    write_alone(b"certificate 1", out)?;
    write_legal(legal, out)
}

/// Appends the text of the certificate that there is no universal play.
fn write_no_play(tree: &Empty, out: &mut List<u8>) -> Result<(), Memory>
    ensures { OnOk result (out.new ≡ out.old ++ text_of (alone (codes "empty") ∷ version_line first_style ∷ illegal_lines first_style tree.now 0 ++ alone (codes "end") ∷ [])) }
{
    write_alone(b"empty", out)?;
    write_alone(b"certificate 1", out)?;
    write_illegal(tree, out)?;
    write_alone(b"end", out)
}

/// Appends the refutation, and the last line.
fn write_refutation(refute: &Refute, out: &mut List<u8>) -> Result<(), Memory>
    ensures { OnOk result (out.new ≡ out.old ++ text_of (alone (codes "refute") ∷ refute_lines first_style refute.now 0 ++ alone (codes "end") ∷ [])) }
{
    write_alone(b"refute", out)?;
    write_refute(refute, out)?;
    write_alone(b"end", out)
}
