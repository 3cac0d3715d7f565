ghost use Rattle.std.specs.Prelude.{◌≡◌, ◌<◌, Some, Err, length};
ghost use Rattle.qm_parse.specs.Checks.{name_fault};
ghost use Rattle.qm_parse.specs.Parsing.{HasOffence, IsJudged};
ghost use Rattle.qm_parse.specs.declared.offence.NameFault.{NameFault};

use crate::ast::Ast;
use crate::checks::name_fault;
use crate::fault::ParseFault;
use crate::names::copy_of;
use crate::offence::{NameFault, Offence};
use qm_io::Memory;
use std::alloc::Global;

/// The tree, where it uses its names right, or else its first offence.
pub(crate) fn judged(alloc: Global, ast: Ast) -> Result<Ast, ParseFault>
    requires known { (fault : NameFault) → name_fault ast ≡ Some fault → fault.name < length ast.names }
    ensures { IsJudged ast result }
{
    match name_fault(alloc, &ast) {
        Ok(None) => Ok(ast),
        Ok(Some(fault)) => Err(offence(alloc, &ast, fault)),
        Err(Memory) => Err(ParseFault::Memory),
    }
}

/// The offence, with the name itself.
fn offence(alloc: Global, ast: &Ast, fault: NameFault) -> ParseFault
    requires first { name_fault ast.now ≡ Some fault }
    requires known { fault.name < length ast.now.names }
    ensures { IsJudged ast.now (Err result) }
{
    let Ok(name) = copy_of(alloc, ast.names.name(fault.name as usize)) else {
        return ParseFault::Memory;
    };
    match fault.offence {
        Offence::BothPlayers => ParseFault::BothPlayers(name, fault.at),
        Offence::Twice => ParseFault::Twice(name, fault.at),
        Offence::Unknown => ParseFault::Unknown(name, fault.at),
        Offence::Unordered => ParseFault::Unordered(name, fault.at),
        Offence::Infinite => ParseFault::Infinite(name, fault.at),
        Offence::NoUpper => ParseFault::NoUpper(name, fault.at),
    }
}
