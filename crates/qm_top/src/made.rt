ghost use Rattle.std.specs.Prelude.{◌≡◌, ◌≤◌, IfOk, length};
ghost use Rattle.qm_gen.specs.Generated.{generated_problem};
ghost use Rattle.qm_top.specs.Answers.{Makes, SolvesMade};
ghost use Rattle.qm_top.specs.Report.{status_of, text_of};

use crate::command::USUAL;
use crate::laws::stated_or_refused;
use crate::report::Report;
use crate::stated::{Stated, stated_by};
use crate::summary_lines::summary_text;
use qm_game::Game;
use qm_gen::{generate, generated_texts_are_small};
use qm_io::Memory;
use qm_search::SearchFault;
use std::alloc::Global;

/// The text of the problem of a number and a size; where memory runs out, this is told.
pub fn make(alloc: Global, number: u32, size: u32) -> Report
    requires number { number ≤ 2147483647 }
    requires some { 1 ≤ size }
    requires few { size ≤ 100 }
    ensures { Makes number size (status_of result) (text_of result) }
{
    match generate(alloc, number, size) {
        Ok(text) => Report::Made(text),
        Err(_) => Report::Memory,
    }
}

/// The game that the text of a number and a size states; it is never refused.
fn made_game(alloc: Global, number: u32, size: u32) -> Result<Game, Memory>
    requires number { number ≤ 2147483647 }
    requires some { 1 ≤ size }
    requires few { size ≤ 100 }
    ensures { IfOk result (λ game. game ≡ generated_problem number size) }
{
    generated_texts_are_small();
    stated_or_refused();
    let text = generate(alloc, number, size)?;
    match stated_by(alloc, text.as_slice())? {
        Stated::Game(game) => Ok(game),
        Stated::Refused(_) => unreachable!(),
    }
}

/// How a game without continuous variables ends, in three lines, by a search of the usual budget.
fn summarize(alloc: Global, game: &Game) -> Result<Report, Memory>
    requires { game.now.wholes ≡ length game.now.vars }
    ensures { IfOk result (λ report. SolvesMade game.now (status_of report) (text_of report)) }
{
    match qm_search::solve(alloc, game, USUAL) {
        Ok(solved) => Ok(Report::Summary(summary_text(alloc, game, &solved)?)),
        Err(SearchFault::Spent(journal)) => Ok(Report::Spent(journal)),
        // only numbers of continuous variables leave the range
        Err(SearchFault::Leave(_)) => unreachable!(),
        Err(SearchFault::Memory) => Err(Memory),
    }
}

/// How the problem of a number and a size ends, by its own text.
fn solve_made(alloc: Global, number: u32, size: u32) -> Result<Report, Memory>
    requires number { number ≤ 2147483647 }
    requires some { 1 ≤ size }
    requires few { size ≤ 100 }
    ensures { IfOk result (λ report. SolvesMade (generated_problem number size) (status_of report) (text_of report)) }
{
    generated_texts_are_small();
    let game = made_game(alloc, number, size)?;
    summarize(alloc, &game)
}

/// The same; where memory runs out, this is told.
pub fn make_and_solve(alloc: Global, number: u32, size: u32) -> Report
    requires number { number ≤ 2147483647 }
    requires some { 1 ≤ size }
    requires few { size ≤ 100 }
    ensures { SolvesMade (generated_problem number size) (status_of result) (text_of result) }
{
    match solve_made(alloc, number, size) {
        Ok(report) => report,
        Err(_) => Report::Memory,
    }
}
