ghost use Rattle.std.specs.Prelude.{◌≡◌, ◌<◌, [], IsTrue, Some, length};
ghost use Rattle.qm_model.specs.Boxes.{IsBox, bounds_of};
ghost use Rattle.qm_model.specs.declared.variable.Player.TheVariants.{All as Universal};
ghost use Rattle.qm_legal.specs.Queries.{AreFree, AreSet, IsQuery};
ghost use Rattle.qm_journal.specs.Lawful.{IsUniversalTurn};

use crate::asked::{MOST, answer_words};
use crate::first_values::{is_universal_turn, whole_vars};
use probe_words::{NoAnswer, one_line, test_line};
use qm_certfile::{Certificate, write};
use qm_combo::test_empty;
use qm_game::{Bx, Game, Player, Range, Var};
use qm_journal::Journal;
use qm_legal::{Empty, LegalFault, Legality, NamedPrefix, legal};
use std::alloc::{AllocError, Global};

/// Whether the value of the first variable, which the universal player sets and which is set in the box, can be completed
/// to a play, for the depth 1; for the depth 0, whether there is a play: the values of the later universal variables, or
/// the lines of the tree that shows that there are none, and whether it passes.
pub fn legal_line(alloc: Global, game: &Game, bx: Bx, depth: &str) -> Result<String, NoAnswer>
    requires { IsBox game.now.vars bx }
{
    match depth.parse::<u32>() {
        Ok(depth) if depth <= 1 && is_query(game, depth, &bx) => {
            if depth == 0 {
                answer_line(alloc, game, asked_first(alloc, game, &bx), bx)
            } else if is_universal_turn(whole_vars(game), 0) && bx.len() > 0 {
                answer_line(alloc, game, asked_value(alloc, game, &bx), bx)
            } else {
                Ok(String::from_str(alloc, "no query")?)
            }
        }
        Ok(_) => Ok(String::from_str(alloc, "no query")?),
        Err(_) => Err(NoAnswer::Spelling),
    }
}

fn asked_first(alloc: Global, game: &Game, bx: &Bx) -> Result<Legality, LegalFault>
    requires { IsQuery game.now 0 bx.now }
{
    let named = NamedPrefix {
        parent: 0,
        value: None,
    };
    let mut journal = Journal::new(alloc, MOST);
    legal(alloc, game, bx, named, &mut journal)
}

fn asked_value(alloc: Global, game: &Game, bx: &Bx) -> Result<Legality, LegalFault>
    requires query { IsQuery game.now 1 bx.now }
    requires turn { IsUniversalTurn game.now [] }
    requires some { 0 < length bx.now }
{
    let mut journal = Journal::new(alloc, MOST);
    legal(alloc, game, bx, first_value(bx.as_slice()[0]), &mut journal)
}

// The value of the first variable.
fn first_value(range: Range) -> NamedPrefix
    ensures { result ≡ record { parent = 0; value = Some range.low } }
{
    NamedPrefix {
        parent: 0,
        value: Some(range.low),
    }
}

fn answer_line(
    alloc: Global,
    game: &Game,
    answer: Result<Legality, LegalFault>,
    bx: Bx,
) -> Result<String, NoAnswer>
    requires { IsBox game.now.vars bx }
{
    match answer {
        Ok(Legality::Illegal(tree)) => Ok(illegal_line(alloc, game, bx, tree)?),
        answer => answer_words(alloc, &answer),
    }
}

fn illegal_line(alloc: Global, game: &Game, bx: Bx, tree: Empty) -> Result<String, AllocError>
    requires { IsBox game.now.vars bx }
{
    let mut bx = bx;
    let test = test_line(alloc, test_empty(game, &mut bx, &tree))?;
    match write(alloc, game, &Certificate::Empty(tree)) {
        Ok(text) => {
            let lines = one_line(alloc, text.as_slice())?;
            let tree = between(lines.as_str(), "illegal / ", " / end");
            format!(in alloc; "illegal {test}: {tree}")
        }
        Err(_) => String::from_str(alloc, "memory"),
    }
}

// What stands between these words.
fn between<'a>(text: &'a str, before: &str, behind: &str) -> &'a str {
    let (_, rest) = text.split_once(before).unwrap_or(("", text));
    let (middle, _) = rest.split_once(behind).unwrap_or((rest, ""));
    middle
}

fn is_query(game: &Game, depth: u32, bx: &Bx) -> bool
    requires { IsBox game.now.vars bx.now }
    ensures { IsTrue result → IsQuery game.now depth bx.now }
{
    let problem = game.problem();
    let depth = depth as usize;
    if depth > problem.wholes as usize || depth > bx.len() {
        return false;
    }
    let wholes = &problem.vars.as_slice()[..problem.wholes as usize];
    are_set(&wholes[..depth], bx.as_slice()) && are_free(&wholes[depth..], &bx.as_slice()[depth..])
}

fn are_set(vars: &[Var], bx: &[Range]) -> bool
    ensures { IsTrue result → AreSet vars.now bx.now }
{
    if vars.len() > bx.len() {
        return false;
    }
    for (at, var) in vars.iter().enumerate() {
        if !is_set(var, bx[at]) {
            return false;
        }
    }
    true
}

fn is_set(var: &Var, range: Range) -> bool
    ensures { IsTrue result → var.now.player ≡ Universal → range.low ≡ range.high }
{
    match var.player {
        Player::Exists => true,
        Player::All => range.low == range.high,
    }
}

fn are_free(vars: &[Var], bx: &[Range]) -> bool
    ensures { IsTrue result → AreFree vars.now bx.now }
{
    if vars.len() > bx.len() {
        return false;
    }
    for (at, var) in vars.iter().enumerate() {
        if !is_free(var, bx[at]) {
            return false;
        }
    }
    true
}

fn is_free(var: &Var, range: Range) -> bool
    ensures { IsTrue result → var.now.player ≡ Universal → range ≡ bounds_of var.now }
{
    match var.player {
        Player::Exists => true,
        Player::All => range.low == var.low && range.high == var.high,
    }
}
