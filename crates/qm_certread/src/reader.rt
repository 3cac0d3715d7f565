ghost use Rattle.std.specs.Prelude.{◌≡◌, ◌≤◌, ◌<◌, ◌^◌, ◌∷◌, [], length, IfOk, IfErr, OnOk};
ghost use Rattle.qm_model.specs.declared.game.Problem.{Problem};
ghost use Rattle.qm_certfile.specs.declared.certificate.Certificate.{Certificate};
ghost use Rattle.qm_certfile.specs.CertificateLines.{certificate_text, claimed, version_line};
ghost use Rattle.qm_certread.specs.Dues.{Played, Policy, Refute, Said, end_line, policy_line, refute_line};
ghost use Rattle.qm_certread.specs.Nodes.{Fixed, Legal};
ghost use Rattle.qm_certread.specs.NodesOf.{body_nodes, claim_of, policy_nodes, refute_nodes};
ghost use Rattle.qm_certfile.specs.Styles.{first_style};
ghost use Rattle.qm_certread.specs.Forms.{certificate_form};
ghost use Rattle.qm_certread.specs.Fits.{Fits};
ghost use Rattle.qm_certread.specs.Reading.{IsFirstFault, IsReadBack};
ghost use Rattle.qm_certread.specs.ReadSteps.{Fails, IsFault, IsIn, IsLast, Meets, body_dues};
ghost use Rattle.qm_certread.specs.SaidSteps.{claim_node};

use crate::cursor::Cursor;
use crate::empty_reader::read_empty;
use crate::fault::CertFault;
use crate::next::{next_alone, next_claim, next_values, next_version, text_end};
use crate::places::{universal_count, whole_vars};
use crate::policy_reader::read_policy;
use crate::refute_reader::read_refute;
use crate::said::Claim;
use qm_certfile::{Certificate, claimed};
use qm_frac::Frac;
use qm_io::List;
use qm_model::{Game, Problem};
use qm_trees::{Policy as Moves, Refute as Tree};
use std::alloc::Global;

/// The certificate of the game that the text is. `Text` and `Number` name the first line that isn't in form.
pub fn read(alloc: Global, text: &[u8], game: &Game) -> Result<Certificate, CertFault>
    requires { length text.now < 2 ^ 31 }
    ensures form { IsFirstFault (certificate_form first_style game.now text.now) result }
    ensures text { IfOk result (λ certificate. certificate_text game.now certificate ≡ text.now) }
    ensures fits { IfOk result (λ certificate. Fits game.now certificate) }
    ensures back { (certificate : Certificate) → Fits game.now certificate → certificate_text game.now certificate ≡ text.now → IsReadBack certificate result }
{
    let problem = game.problem();
    let mut cursor = Cursor { at: 0, line: 1 };
    let claim = next_claim(text, &mut cursor)?;
    let certificate = read_body(alloc, problem, claim, text, &mut cursor)?;
    ended(certificate, text, cursor)
}

/// The certificate, where the last line is next and the text ends behind it.
fn ended(certificate: Certificate, text: &[u8], cursor: Cursor) -> Result<Certificate, CertFault>
    requires { IsIn text.now cursor }
    ensures ok { IfOk result (λ whole. (whole ≡ certificate) × IsLast text.now cursor) }
    ensures err { IfErr result (λ e. (P : Problem) → IsFault P text.now (Said end_line ∷ []) cursor e) }
{
    read_end(text, cursor)?;
    Ok(certificate)
}

/// Takes the last line, behind which the text ends.
fn read_end(text: &[u8], cursor: Cursor) -> Result<(), CertFault>
    requires { IsIn text.now cursor }
    ensures ok { OnOk result (IsLast text.now cursor) }
    ensures err { IfErr result (λ e. (P : Problem) → IsFault P text.now (Said end_line ∷ []) cursor e) }
{
    let mut cursor = cursor;
    next_alone(b"end", text, &mut cursor)?;
    text_end(text, cursor)
}

/// Reads what stands between the first line and the last.
fn read_body(
    alloc: Global,
    problem: &Problem,
    claim: Claim,
    text: &[u8],
    cursor: &mut Cursor,
) -> Result<Certificate, CertFault>
    requires wholes { problem.now.wholes ≤ length problem.now.vars }
    requires place { IsIn text.now cursor.old }
    ensures place { OnOk result (IsIn text.now cursor.new) }
    ensures claim { IfOk result (λ certificate. claim_of problem.now certificate ≡ claim_node claim) }
    ensures ok { IfOk result (λ certificate. Meets problem.now text.now (body_dues claim) (body_nodes first_style certificate) cursor.old cursor.new) }
    ensures err { IfErr result (λ e. Fails problem.now text.now (body_dues claim) cursor.old e) }
{
    match claim {
        Claim::Optimal(value) => {
            let legal = read_begin(alloc, problem, text, cursor)?;
            let policy = read_moves(alloc, problem, text, cursor)?;
            let refute = read_refutation(alloc, problem, text, cursor)?;
            let value = maximised(problem, value);
            Ok(Certificate::Optimal {
                value,
                legal,
                policy,
                refute,
            })
        }
        Claim::Infeasible => {
            let legal = read_begin(alloc, problem, text, cursor)?;
            let refute = read_refutation(alloc, problem, text, cursor)?;
            Ok(Certificate::Infeasible { legal, refute })
        }
        Claim::NoPlay => {
            next_version(text, cursor)?;
            next_alone(b"illegal", text, cursor)?;
            let tree = read_empty(alloc, problem, 0, text, cursor)?;
            Ok(Certificate::Empty(tree))
        }
    }
}

/// The value of the maximised problem, by that in the sense of the file.
fn maximised(problem: &Problem, shown: Frac) -> Frac
    ensures { result ≡ claimed problem.now.sense shown }
{
    claimed(problem.sense, shown)
}

/// Reads the lines of the version and of the universal play.
fn read_begin(
    alloc: Global,
    problem: &Problem,
    text: &[u8],
    cursor: &mut Cursor,
) -> Result<List<i64>, CertFault>
    requires wholes { problem.now.wholes ≤ length problem.now.vars }
    requires place { IsIn text.now cursor.old }
    ensures place { OnOk result (IsIn text.now cursor.new) }
    ensures ok { IfOk result (λ legal. Meets problem.now text.now (Said (version_line first_style) ∷ Played ∷ []) (Fixed (version_line first_style) ∷ Legal legal ∷ []) cursor.old cursor.new) }
    ensures err { IfErr result (λ e. Fails problem.now text.now (Said (version_line first_style) ∷ Played ∷ []) cursor.old e) }
{
    next_version(text, cursor)?;
    let count = universal_count(whole_vars(problem));
    next_values(alloc, b"legal", count, text, cursor)
}

/// Reads a policy for the whole game.
fn read_moves(
    alloc: Global,
    problem: &Problem,
    text: &[u8],
    cursor: &mut Cursor,
) -> Result<Moves, CertFault>
    requires wholes { problem.now.wholes ≤ length problem.now.vars }
    requires place { IsIn text.now cursor.old }
    ensures place { OnOk result (IsIn text.now cursor.new) }
    ensures ok { IfOk result (λ policy. Meets problem.now text.now (Said policy_line ∷ Policy 0 ∷ []) (Fixed policy_line ∷ policy_nodes policy) cursor.old cursor.new) }
    ensures err { IfErr result (λ e. Fails problem.now text.now (Said policy_line ∷ Policy 0 ∷ []) cursor.old e) }
{
    next_alone(b"policy", text, cursor)?;
    read_policy(alloc, problem, 0, text, cursor)
}

/// Reads a refutation of the whole game.
fn read_refutation(
    alloc: Global,
    problem: &Problem,
    text: &[u8],
    cursor: &mut Cursor,
) -> Result<Tree, CertFault>
    requires wholes { problem.now.wholes ≤ length problem.now.vars }
    requires place { IsIn text.now cursor.old }
    ensures place { OnOk result (IsIn text.now cursor.new) }
    ensures ok { IfOk result (λ tree. Meets problem.now text.now (Said refute_line ∷ Refute 0 ∷ []) (Fixed refute_line ∷ refute_nodes tree) cursor.old cursor.new) }
    ensures err { IfErr result (λ e. Fails problem.now text.now (Said refute_line ∷ Refute 0 ∷ []) cursor.old e) }
{
    next_alone(b"refute", text, cursor)?;
    read_refute(alloc, problem, 0, text, cursor)
}
