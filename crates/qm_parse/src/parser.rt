ghost use Rattle.std.specs.Prelude.{◌≡◌, ◌<◌, ◌^◌, length};
ghost use Rattle.qm_lex.specs.Texts.{AreTokens};
ghost use Rattle.qm_parse.specs.Parsing.{IsParsed, fault_of};

use crate::ast::Ast;
use crate::fault::ParseFault;
use crate::judgement::judged;
use crate::reader::read;
use crate::symbols::symbols;
use crate::unread::Unread;
use qm_lex::{Token, tokens_stand_in_order};
use std::alloc::Global;

/// The syntax tree of a text with these tokens, or its first fault: a fault of the grammar, and else a name that is used wrong.
pub fn parse(alloc: Global, text: &[u8], tokens: &[Token]) -> Result<Ast, ParseFault>
    requires short { length text.now < 2 ^ 31 }
    requires tokens { AreTokens text.now tokens.now }
    ensures { IsParsed text.now tokens.now result }
{
    tokens_stand_in_order();
    let spelled = symbols(alloc, text, tokens).map_err(|_| ParseFault::Memory)?;
    match read(
        alloc,
        spelled.names,
        spelled.symbols.as_slice(),
        spelled.end,
    ) {
        Ok(ast) => judged(alloc, ast),
        Err(wrong) => Err(fault_of(wrong)),
    }
}

/// Why a text with these symbols has no tree.
#[tactic(auto, unfolding(crate::specs::Parsing::fault_of))]
fn fault_of(wrong: Unread) -> ParseFault
    ensures { result ≡ fault_of wrong }
{
    match wrong {
        Unread::Expected(at, what) => ParseFault::Expected(at, what),
        Unread::Number(at) => ParseFault::Number(at),
        Unread::Memory => ParseFault::Memory,
    }
}
