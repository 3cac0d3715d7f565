use probe_words::{Stated, game_of};
use qm_model::{Player, Problem, Row, Sense, Term, Var};
use std::alloc::{AllocError, Global};

/// The normal form of a text in one line, in the order of its parts, each behind ` | `: the sense with the objective that
/// is maximised, which is `over` its scale; how many variables are whole; the variables with their bounds; and the rows.
/// Where it has none, the line that refuses it.
pub fn normal_of(alloc: Global, written: &str) -> Result<String, AllocError> {
    match game_of(alloc, written)? {
        Stated::Game(game) => problem_line(alloc, game.problem()),
        Stated::Nothing(line) => Ok(line),
    }
}

fn problem_line(alloc: Global, problem: &Problem) -> Result<String, AllocError> {
    let vars = problem.vars.as_slice();
    let mut out = String::from_str(alloc, sense_word(problem.sense))?;
    add_terms(alloc, vars, problem.terms.as_slice(), &mut out)?;
    add_numbers(alloc, problem, &mut out)?;
    for var in vars {
        add_var(alloc, var, &mut out)?;
    }
    for row in problem.rows.as_slice() {
        add_row(alloc, vars, " | row", row, &mut out)?;
    }
    for row in problem.urows.as_slice() {
        add_row(alloc, vars, " | uncertain", row, &mut out)?;
    }
    Ok(out)
}

fn sense_word(sense: Sense) -> &'static str {
    match sense {
        Sense::Max => "max",
        Sense::Min => "min",
    }
}

fn add_numbers(alloc: Global, problem: &Problem, out: &mut String) -> Result<(), AllocError> {
    let constant = problem.constant;
    let scale = problem.scale;
    let wholes = problem.wholes;
    let words = format!(in alloc; " {constant} over {scale} | wholes {wholes}")?;
    out.push_str(words.as_str())
}

fn add_terms(
    alloc: Global,
    vars: &[Var],
    terms: &[Term],
    out: &mut String,
) -> Result<(), AllocError> {
    for term in terms {
        let coef = term.coef;
        let name = match vars.get(term.var as usize) {
            Some(var) => String::from_utf8_lossy(alloc, var.name.as_slice())?,
            None => String::from_str(alloc, "?")?,
        };
        let word = format!(in alloc; " {coef}*{name}")?;
        out.push_str(word.as_str())?;
    }
    Ok(())
}

fn add_var(alloc: Global, var: &Var, out: &mut String) -> Result<(), AllocError> {
    let player = match var.player {
        Player::Exists => "exists",
        Player::All => "all",
    };
    let kind = if var.whole { "whole" } else { "continuous" };
    let name = String::from_utf8_lossy(alloc, var.name.as_slice())?;
    let low = var.low;
    let high = var.high;
    let words = format!(in alloc; " | {player} {kind} {name} {low}..{high}")?;
    out.push_str(words.as_str())
}

fn add_row(
    alloc: Global,
    vars: &[Var],
    word: &str,
    row: &Row,
    out: &mut String,
) -> Result<(), AllocError> {
    let right = row.right;
    out.push_str(word)?;
    add_terms(alloc, vars, row.terms.as_slice(), out)?;
    let end = format!(in alloc; " <= {right}")?;
    out.push_str(end.as_str())
}
