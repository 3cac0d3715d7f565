ghost use Rattle.std.specs.Prelude.{◌≡◌, IfOk};

use qm_game::Bx;
use qm_io::{List, Memory};
use std::alloc::Global;

/// A copy of the box.
pub fn copied(alloc: Global, bx: &Bx) -> Result<Bx, Memory>
    ensures { IfOk result (λ copy. copy ≡ bx.now) }
{
    let mut copy = List::new(alloc);
    copy.append(bx.as_slice())?;
    Ok(copy)
}
