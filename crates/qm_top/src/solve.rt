ghost use Rattle.std.specs.Prelude.{◌≡◌, ◌≤◌, IfOk, length};
ghost use Rattle.qm_top.specs.Answers.{Solves, SolvesProblem, SolvesText};
ghost use Rattle.qm_top.specs.Readings.{reading};
ghost use Rattle.qm_top.specs.Report.{status_of, text_of};
ghost use Rattle.qm_top.specs.Words.{IsBudget};

use crate::leave_lines::leave_text;
use crate::report::Report;
use crate::stated::{Stated, stated_by};
use qm_certfile::write;
use qm_game::Game;
use qm_io::{List, Memory, ReadFault, Source, Whole, read_all};
use qm_search::SearchFault;
use std::alloc::Global;

/// The most bytes that a problem has.
pub const MOST: usize = 4_194_304;

/// What is answered about a game, by a search of at most so many entries.
fn solve_game(alloc: Global, game: &Game, nodes: u64) -> Result<Report, Memory>
    requires { IsBudget nodes }
    ensures { IfOk result (λ report. SolvesProblem game.now nodes (status_of report) (text_of report)) }
{
    // that the problem is in order
    let _problem = game.problem();
    match qm_search::solve(alloc, game, nodes) {
        Ok(solved) => Ok(Report::Certificate(write(alloc, game, &solved.certificate)?)),
        Err(SearchFault::Spent(journal)) => Ok(Report::Spent(journal)),
        Err(SearchFault::Leave(leave)) => Ok(Report::Leaves(leave_text(alloc, &leave)?)),
        Err(SearchFault::Memory) => Err(Memory),
    }
}

/// What is answered about the bytes of a text, which are dropped before the search begins.
fn solve_text(alloc: Global, text: List<u8>, nodes: u64) -> Result<Report, Memory>
    requires short { length text ≤ 4194304 }
    requires budget { IsBudget nodes }
    ensures { IfOk result (λ report. SolvesText text nodes (status_of report) (text_of report)) }
{
    let stated = stated_by(alloc, text.as_slice())?;
    drop(text);
    match stated {
        Stated::Refused(report) => Ok(report),
        Stated::Game(game) => solve_game(alloc, &game, nodes),
    }
}

/// What is answered about a whole text; where memory runs out, this is told.
fn solve_bytes(alloc: Global, text: List<u8>, nodes: u64) -> Report
    requires short { length text ≤ 4194304 }
    requires budget { IsBudget nodes }
    ensures { SolvesText text nodes (status_of result) (text_of result) }
{
    match solve_text(alloc, text, nodes) {
        Ok(report) => report,
        Err(_) => Report::Memory,
    }
}

/// Reads the problem to its end, and says how it ends, with the trees that show it, or that so many entries are too few.
pub fn solve<P: Source>(alloc: Global, problem: &mut P, nodes: u64) -> Report
    requires { IsBudget nodes }
    ensures later { P.faults problem.old ≤ P.faults problem.new }
    ensures solves { Solves (reading (P.rest problem.old) (P.rest problem.new) (P.faults problem.old) (P.faults problem.new)) nodes (status_of result) (text_of result) }
{
    match read_all(alloc, problem, MOST) {
        Err(ReadFault::Read) => Report::ReadProblem,
        Err(ReadFault::Memory) => Report::Memory,
        Ok(Whole::Longer) => Report::Long,
        Ok(Whole::Bytes(text)) => solve_bytes(alloc, text, nodes),
    }
}
