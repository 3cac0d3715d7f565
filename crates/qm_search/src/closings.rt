ghost use Rattle.std.specs.Prelude.{◌≡◌, [], ◌∷◌, IfOk, false, pos};
ghost use Rattle.qm_math.specs.Fraction.{whole};
ghost use Rattle.qm_model.specs.Boxes.{IsBox};
ghost use Rattle.qm_trees.specs.declared.refutation.Refute.{Close};
ghost use Rattle.qm_search.specs.JudgeSteps.{IsClosing};

use qm_frac::Frac;
use qm_game::{Bx, Game, RowId, has_empty, row_dead};
use qm_io::Memory;
use qm_trees::{Combo, Entry, Refute};
use std::alloc::Global;

/// A dead row alone closes every goal.
fn closed_by(alloc: Global, row: RowId) -> Result<Refute, Memory>
    ensures { IfOk result (λ tree. tree ≡ Close (record { objective = false; entries = record { row = row; by = whole (pos 1) } ∷ [] })) }
{
    let mut combo = Combo::new(alloc, false);
    combo.push(Entry {
        row,
        by: Frac::whole(1),
    })?;
    Ok(Refute::Close(combo))
}

/// A refutation of every goal where the box has an empty range, which needs no row, or where a row is dead over it.
pub fn closed_at_once(alloc: Global, game: &Game, bx: &Bx) -> Result<Option<Refute>, Memory>
    requires { IsBox game.now.vars bx.now }
    ensures { IfOk result (IsClosing game.now bx.now) }
{
    // that the problem is in order
    let _problem = game.problem();
    if has_empty(bx) {
        return Ok(Some(Refute::Close(Combo::new(alloc, false))));
    }
    match row_dead(game, bx) {
        Some(row) => Ok(Some(closed_by(alloc, row)?)),
        None => Ok(None),
    }
}
