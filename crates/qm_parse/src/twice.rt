ghost use Rattle.std.specs.Prelude.{◌≡◌, [], IfOk};
ghost use Rattle.qm_parse.specs.Checks.{repeated};

use crate::ast::Named;
use crate::marks::Marks;
use qm_io::Memory;
use std::alloc::Global;

/// The first of a list whose name stands before it too.
pub(crate) fn repeated(alloc: Global, list: &[Named]) -> Result<Option<Named>, Memory>
    ensures { IfOk result (λ found. found ≡ repeated [] list.now) }
{
    let mut before = Marks::new(alloc);
    for named in list {
        if before.has(named.name) {
            return Ok(Some(*named));
        }
        before.mark(named.name)?;
    }
    Ok(None)
}
