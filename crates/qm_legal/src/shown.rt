ghost use Rattle.std.specs.Prelude.{◌≡◌, [], ◌∷◌, false, pos, IfOk};
ghost use Rattle.qm_math.specs.Fraction.{whole};
ghost use Rattle.qm_model.specs.declared.row_id.RowId.TheVariants as id;
ghost use Rattle.qm_trees.specs.declared.empty.Empty.{Close};
ghost use Rattle.qm_legal.specs.Queries.{IsQuery};
ghost use Rattle.qm_legal.specs.SearchSteps.{IsClosedAtOnce};

use crate::completion::some_universal_empty;
use crate::dead::dead_row;
use qm_frac::Frac;
use qm_game::{Bx, Place, RowId};
use qm_io::Memory;
use qm_trees::{Combo, Empty, Entry};
use std::alloc::Global;

/// The tree of a dead uncertainty row.
pub fn closed_by(alloc: Global, number: u32) -> Result<Empty, Memory>
    ensures { IfOk result (λ tree. tree ≡ Close (record { objective = false; entries = record { row = id.Uncertain number; by = whole (pos 1) } ∷ [] })) }
{
    let mut combo = Combo::new(alloc, false);
    combo.push(Entry {
        row: RowId::Uncertain(number),
        by: Frac::whole(1),
    })?;
    Ok(Empty::Close(combo))
}

/// The tree of an empty universal range.
pub fn closed_by_range(alloc: Global) -> Empty
    ensures { result ≡ Close (record { objective = false; entries = [] }) }
{
    Empty::Close(Combo::new(alloc, false))
}

/// The tree that shows at once that no play is left: by an empty universal range, or by the first uncertainty row that is
/// dead over the box; none where no range is empty and no row is dead.
pub fn closed_at_once(alloc: Global, here: Place<'_>, bx: &Bx) -> Result<Option<Empty>, Memory>
    requires { IsQuery here.game.now here.depth bx.now }
    ensures { IfOk result (IsClosedAtOnce here.entry.game.now here.entry.rest.now here.entry.depth bx.now) }
{
    // that the problem is in order
    let _problem = here.game.problem();
    let first = Place::at(here.game, 0);
    if some_universal_empty(first.rest, bx.as_slice()) {
        return Ok(Some(closed_by_range(alloc)));
    }
    match dead_row(here.game, bx) {
        Some(number) => Ok(Some(closed_by(alloc, number)?)),
        None => Ok(None),
    }
}
