ghost use Rattle.std.specs.Prelude.{◌≡◌, IfOk};
ghost use Rattle.qm_normal.specs.Variables.{name_of};

use qm_io::{List, Memory};
use qm_parse::Ast;
use std::alloc::Global;

/// A copy of the name of a number; of no bytes, where no name has the number.
pub(crate) fn name_of(alloc: Global, ast: &Ast, name: u32) -> Result<List<u8>, Memory>
    ensures { IfOk result (λ copy. copy ≡ name_of ast.now name) }
{
    let at = name as usize;
    let mut copy = List::new(alloc);
    if at >= ast.names.len() {
        return Ok(copy);
    }
    copy.append(ast.names.name(at))?;
    Ok(copy)
}
