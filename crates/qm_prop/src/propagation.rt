ghost use Rattle.std.specs.Prelude.{◌≡◌, IfOk};
ghost use Rattle.qm_model.specs.Boxes.{IsBox};
ghost use Rattle.qm_prop.specs.Courses.{propagation_of};
ghost use Rattle.qm_prop.specs.Propagation.{Tells};

use crate::Propagated;
use crate::course::Course;
use crate::sweep::sweep;
use qm_game::{Bx, Game};
use qm_io::{List, Memory};
use std::alloc::Global;

/// The most sweeps.
const SWEEPS: u32 = 32;

/// Narrows the box by sweeps, each through the rows and then the uncertainty rows, until one of them is dead at its
/// turn, or a sweep narrows nothing, or 32 sweeps have each narrowed something. A row narrows each of its variables
/// as far as it alone does: to whole numbers inwards for a whole variable, outwards for a continuous one.
/// `Memory`, where there is none for the reasons; the given box is then given up.
pub fn propagate(alloc: Global, game: &Game, bx: Bx) -> Result<Propagated, Memory>
    requires { IsBox game.now.vars bx }
    ensures exact { IfOk result (λ p. p ≡ propagation_of game.now bx) }
    ensures tells { IfOk result (Tells game.now bx) }
{
    let _problem = game.problem();
    let mut course = Course {
        bx,
        reasons: List::new(alloc),
    };
    for _ in 0..SWEEPS {
        let before = course.reasons.len();
        if let Some(row) = sweep(game, &mut course)? {
            return Ok(Propagated::Dead {
                row,
                reasons: course.reasons,
            });
        }
        if course.reasons.len() == before {
            return Ok(Propagated::Narrowed {
                bx: course.bx,
                reasons: course.reasons,
                settled: true,
            });
        }
    }
    Ok(Propagated::Narrowed {
        bx: course.bx,
        reasons: course.reasons,
        settled: false,
    })
}
