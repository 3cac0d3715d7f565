ghost use Rattle.std.specs.Prelude.{◌≡◌, ◌++◌, ◌∷◌, [], length, IfOk, OnOk};
ghost use Rattle.std.specs.Fmt.{decimal};
ghost use Rattle.qm_certfile.specs.Lines.{line_text};
ghost use Rattle.qm_certfile.specs.Passes.{ending_of};
ghost use Rattle.qm_certread.specs.Fits.{line_of};
ghost use Rattle.qm_certread.specs.SaidSteps.{claim_node};
ghost use Rattle.qm_top.specs.EndingLines.{ending_line};
ghost use Rattle.qm_top.specs.SummaryLines.{summary_text};

use crate::claim_lines::write_claim;
use qm_certfile::{Certificate, claimed, write};
use qm_certread::Claim;
use qm_game::Game;
use qm_io::{List, Memory};
use qm_model::Sense;
use qm_search::Solved;
use qm_text::write_count;
use std::alloc::Global;

/// What a certificate claims, in the sense of the file.
fn claim_of(sense: Sense, certificate: &Certificate) -> Claim
    ensures { line_of (claim_node result) ≡ ending_line sense (ending_of certificate.now) }
{
    match certificate {
        Certificate::Optimal { value, .. } => Claim::Optimal(claimed(sense, *value)),
        Certificate::Infeasible { .. } => Claim::Infeasible,
        Certificate::Empty(_) => Claim::NoPlay,
    }
}

/// Appends a line of a word and a number.
fn write_counted(word: &[u8], count: usize, out: &mut List<u8>) -> Result<(), Memory>
    ensures { OnOk result (out.new ≡ out.old ++ line_text (word.now ∷ decimal count ∷ [])) }
{
    out.append(word)?;
    out.push(b' ')?;
    write_count(count, out)?;
    out.push(b'\n')
}

/// The summary of what a search found: the ending, and the sizes of the journal and of the certificate's text.
pub fn summary_text(alloc: Global, game: &Game, solved: &Solved) -> Result<List<u8>, Memory>
    ensures { IfOk result (λ text. text ≡ summary_text game.now solved.now.certificate solved.now.journal.entries) }
{
    let certificate = write(alloc, game, &solved.certificate)?;
    let mut text = List::new(alloc);
    write_claim(
        claim_of(game.problem().sense, &solved.certificate),
        &mut text,
    )?;
    write_counted(b"nodes", solved.journal.entries().len(), &mut text)?;
    write_counted(b"certificate", certificate.len(), &mut text)?;
    Ok(text)
}
