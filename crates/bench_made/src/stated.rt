ghost use Rattle.std.specs.Prelude.{◌<◌, ◌^◌, Ok, length};
ghost use Rattle.qm_lex.specs.Texts.{AreTokens};
ghost use Rattle.qm_parse.specs.Parsing.{IsParsed};

use qm_lex::{Token, tokens};
use qm_model::Game;
use qm_normal::{normal, trees_of_texts_are_in_order};
use qm_parse::{Ast, parse};
use std::alloc::Global;

/// The most bytes of a text that has tokens.
const MOST: usize = 0x7FFF_FFFF;

/// The game that the text states; none where it states none, or memory runs out.
pub fn game_of(alloc: Global, text: &str) -> Option<Game> {
    game_of_bytes(alloc, text.as_bytes())
}

/// The game that these bytes state; none where they state none, or memory runs out.
pub fn game_of_bytes(alloc: Global, text: &[u8]) -> Option<Game> {
    if text.len() > MOST {
        return None;
    }
    let tokens = tokens(alloc, text).ok()?;
    let ast = parse(alloc, text, tokens.as_slice()).ok()?;
    game_of_tree(alloc, text, tokens.as_slice(), &ast)
}

fn game_of_tree(alloc: Global, text: &[u8], tokens: &[Token], ast: &Ast) -> Option<Game>
    requires short { length text.now < 2 ^ 31 }
    requires tokens { AreTokens text.now tokens.now }
    requires ast { IsParsed text.now tokens.now (Ok ast.now) }
{
    trees_of_texts_are_in_order();
    normal(alloc, ast).ok()
}
