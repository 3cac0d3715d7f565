ghost use Rattle.std.specs.Prelude.{◌≤◌, ◌^◌, ◌<◌, ◌↔◌, All, IsTrue, length, MatchOption};
ghost use Rattle.qm_model.specs.Linear.{HasVarsBelow};
ghost use Rattle.qm_model.specs.Sizes.{reach_in_box, row_size};
ghost use Rattle.qm_model.specs.Boxes.{IsBox, IsDead};
ghost use Rattle.qm_game.specs.First.{HasNone, IsFirst};
ghost use Rattle.qm_game.specs.Dead.{IsFirstDead};

use crate::{Bx, Game, Row, RowId, least};

fn is_dead(row: &Row, bx: &Bx) -> bool
    requires vars { HasVarsBelow (length bx.now) row.now.terms }
    requires size { row_size (reach_in_box bx.now) row.now ≤ 2 ^ 126 }
    ensures { IsTrue result ↔ IsDead bx.now row.now }
{
    least(row, bx) > row.right
}

/// The number of the first row that is dead over the box.
fn first_dead(rows: &[Row], bx: &Bx) -> Option<u32>
    requires few { length rows.now < 2 ^ 29 }
    requires vars { All (λ row. HasVarsBelow (length bx.now) row.terms) rows.now }
    requires size { All (λ row. row_size (reach_in_box bx.now) row ≤ 2 ^ 126) rows.now }
    ensures { MatchOption result (HasNone (IsDead bx.now) rows.now) (IsFirst (IsDead bx.now) rows.now) }
{
    for (number, row) in rows.iter().enumerate() {
        if is_dead(row, bx) {
            return Some(number as u32);
        }
    }
    None
}

/// The first row that is dead over the box, else the first uncertainty row that is; `None` where none is.
pub fn row_dead(game: &Game, bx: &Bx) -> Option<RowId>
    requires { IsBox game.now.vars bx.now }
    ensures { IsFirstDead game.now bx.now result }
{
    let problem = game.problem();
    if let Some(number) = first_dead(problem.rows.as_slice(), bx) {
        return Some(RowId::Row(number));
    }
    match first_dead(problem.urows.as_slice(), bx) {
        Some(number) => Some(RowId::Uncertain(number)),
        None => None,
    }
}
