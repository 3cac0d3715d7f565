ghost use Rattle.std.specs.Prelude.{◌≡◌, ◌≤◌, IfOk, length};
ghost use Rattle.qm_top.specs.Answers.{Checks, ChecksProblem, TellsText};
ghost use Rattle.qm_top.specs.CheckSteps.{ReportsVerdict};
ghost use Rattle.qm_top.specs.Readings.{IsUnread, reading};
ghost use Rattle.qm_top.specs.Report.{status_of, text_of};

use crate::check_lines::{accepted_line, leaves_line, refused_line};
use crate::report::Report;
use crate::solve::MOST;
use crate::stated::{Stated, stated_by};
use qm_check::{CheckFault, Verdict};
use qm_game::Game;
use qm_io::{List, Memory, ReadFault, Source, Whole, read_all};
use std::alloc::Global;

/// What is reported of what the checker tells.
fn verdict_report(alloc: Global, told: Result<Verdict, CheckFault>) -> Result<Report, Memory>
    ensures { IfOk result (λ report. ReportsVerdict told (status_of report) (text_of report)) }
{
    match told {
        Ok(Verdict::Accepted(claim)) => Ok(Report::Accepted(accepted_line(alloc, claim)?)),
        Ok(Verdict::Refused(line, rule)) => Ok(Report::Refused(refused_line(alloc, line, rule)?)),
        Err(CheckFault::Leaves(line, leaves)) => {
            Ok(Report::Leaves(leaves_line(alloc, line, leaves)?))
        }
        Err(CheckFault::Limit) => Ok(Report::LongCertificate),
        Err(CheckFault::Read) => Ok(Report::ReadCertificate),
        Err(CheckFault::Memory) => Err(Memory),
    }
}

/// What is answered about a certificate of a game, which is read to its end.
fn check_game<C: Source>(alloc: Global, game: &Game, certificate: &mut C) -> Report
    ensures later { C.faults certificate.old ≤ C.faults certificate.new }
    ensures checks { ChecksProblem (reading (C.rest certificate.old) (C.rest certificate.new) (C.faults certificate.old) (C.faults certificate.new)) game.now (status_of result) (text_of result) }
{
    // that the problem is in order
    let _problem = game.problem();
    let told = qm_check::check(alloc, game, certificate);
    match verdict_report(alloc, told) {
        Ok(report) => report,
        Err(_) => Report::Memory,
    }
}

/// What is answered about the bytes of a problem, and about the certificate, which is read where they state one.
fn check_text<C: Source>(alloc: Global, text: List<u8>, certificate: &mut C) -> Report
    requires { length text ≤ 4194304 }
    ensures later { C.faults certificate.old ≤ C.faults certificate.new }
    ensures checks { let read = reading (C.rest certificate.old) (C.rest certificate.new) (C.faults certificate.old) (C.faults certificate.new) in
        TellsText (IsUnread read) (ChecksProblem read) text (status_of result) (text_of result) }
{
    let stated = stated_by(alloc, text.as_slice());
    drop(text);
    match stated {
        Err(_) => Report::Memory,
        Ok(Stated::Refused(report)) => report,
        Ok(Stated::Game(game)) => check_game(alloc, &game, certificate),
    }
}

/// Reads the problem to its end, and then its certificate, and says whether no line of the certificate is at fault, and
/// else which is the first.
pub fn check<P: Source, C: Source>(alloc: Global, problem: &mut P, certificate: &mut C) -> Report
    ensures problem_later { P.faults problem.old ≤ P.faults problem.new }
    ensures certificate_later { C.faults certificate.old ≤ C.faults certificate.new }
    ensures checks { Checks (reading (P.rest problem.old) (P.rest problem.new) (P.faults problem.old) (P.faults problem.new))
        (reading (C.rest certificate.old) (C.rest certificate.new) (C.faults certificate.old) (C.faults certificate.new)) (status_of result) (text_of result) }
{
    match read_all(alloc, problem, MOST) {
        Err(ReadFault::Read) => Report::ReadProblem,
        Err(ReadFault::Memory) => Report::Memory,
        Ok(Whole::Longer) => Report::Long,
        Ok(Whole::Bytes(text)) => check_text(alloc, text, certificate),
    }
}
