ghost use Rattle.std.specs.Prelude.{◌≤◌, IfOk, Ok, length};
ghost use Rattle.qm_lex.specs.Texts.{AreTokens};
ghost use Rattle.qm_parse.specs.Parsing.{IsParsed};
ghost use Rattle.qm_top.specs.Stating.{IsStated};

use crate::fault_lines::kind_line;
use crate::refusal::{normal_report, parse_line};
use crate::report::Report;
use qm_game::Game;
use qm_io::Memory;
use qm_lex::{LexFault, Token, tokens};
use qm_normal::{normal, trees_of_texts_are_in_order};
use qm_parse::{Ast, parse};
use std::alloc::Global;

/// What the bytes of a text come to.
#[derive(Debug, Drop)]
pub enum Stated {
    /// They state this game.
    Game(Game),
    /// They state none: the report that says why.
    Refused(Report),
}

fn by_tree(alloc: Global, text: &[u8], tokens: &[Token], ast: &Ast) -> Result<Stated, Memory>
    requires short { length text.now ≤ 4194304 }
    requires tokens { AreTokens text.now tokens.now }
    requires ast { IsParsed text.now tokens.now (Ok ast.now) }
    ensures { IfOk result (IsStated text.now) }
{
    trees_of_texts_are_in_order();
    match normal(alloc, ast) {
        Err(fault) => Ok(Stated::Refused(normal_report(alloc, &fault)?)),
        Ok(game) => Ok(Stated::Game(game)),
    }
}

fn by_tokens(alloc: Global, text: &[u8], tokens: &[Token]) -> Result<Stated, Memory>
    requires short { length text.now ≤ 4194304 }
    requires tokens { AreTokens text.now tokens.now }
    ensures { IfOk result (IsStated text.now) }
{
    match parse(alloc, text, tokens) {
        Err(fault) => Ok(Stated::Refused(Report::Text(parse_line(alloc, &fault)?))),
        Ok(ast) => by_tree(alloc, text, tokens, &ast),
    }
}

/// The game that the bytes of a text state, or why they state none.
pub fn stated_by(alloc: Global, text: &[u8]) -> Result<Stated, Memory>
    requires { length text.now ≤ 4194304 }
    ensures { IfOk result (IsStated text.now) }
{
    match tokens(alloc, text) {
        Err(LexFault::BadByte(at)) => {
            Ok(Stated::Refused(Report::Text(kind_line(alloc, at, b"byte")?)))
        }
        Err(LexFault::Memory) => Err(Memory),
        Ok(tokens) => by_tokens(alloc, text, tokens.as_slice()),
    }
}
