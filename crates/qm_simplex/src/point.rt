ghost use Rattle.std.specs.Prelude.{◌+◌, ◌*◌, ◌<◌, ◌^◌, suc, length};
ghost use Rattle.qm_math.specs.Fraction.{whole};
ghost use Rattle.qm_frac.specs.Checked.{added};
ghost use Rattle.qm_model.specs.Sound.{IsSound};
ghost use Rattle.qm_simplex.specs.declared.answers.LeavePlace.TheVariants as place;
ghost use Rattle.qm_simplex.specs.RunSteps.{Gives};
ghost use Rattle.qm_simplex.specs.Stops.{located, point_at, value_at};
ghost use Rattle.qm_tableau.specs.Tables.{entry_at};

use crate::LeavePlace;
use crate::stuck::Stuck;
use qm_frac::{Frac, over_one};
use qm_io::List;
use qm_model::{Problem, Range};
use qm_tableau::Tableau;
use std::alloc::Global;

/// What the objective comes to at the point of the constants: that of its row over the scale.
pub fn value(problem: &Problem, tableau: &Tableau) -> Result<Frac, Stuck>
    requires sound { IsSound problem.now }
    requires row { 0 < length tableau.now.rows }
    ensures { Gives (value_at problem.now tableau.now.rows) result }
{
    match tableau.entry(0, 0).div(over_one(problem.scale)) {
        Ok(value) => Ok(value),
        Err(leaves) => Err(Stuck::Leaves(LeavePlace::Value, leaves)),
    }
}

/// The value of one variable: from its low end on, the constant of the row of its distance from there.
fn coordinate(tableau: &Tableau, var: u32, range: Range) -> Result<Frac, Stuck>
    requires row { 2 * var + 2 < length tableau.now.rows }
    requires few { var < 2 ^ 29 }
    ensures { Gives (located (place.Point (suc var)) (added (whole range.low) (entry_at tableau.now.rows (2 * var + 2) 0))) result }
{
    match Frac::whole(range.low).add(tableau.entry(2 * var + 2, 0)) {
        Ok(value) => Ok(value),
        Err(leaves) => Err(Stuck::Leaves(LeavePlace::Point(var + 1), leaves)),
    }
}

/// The point of the constants.
pub fn point(alloc: Global, tableau: &Tableau, bx: &[Range]) -> Result<List<Frac>, Stuck>
    requires rows { 2 * length bx.now < length tableau.now.rows }
    requires few { length bx.now < 2 ^ 29 }
    ensures { Gives (point_at tableau.now.rows 0 bx.now) result }
{
    let mut point = List::new(alloc);
    for (var, range) in bx.iter().enumerate() {
        point.push(coordinate(tableau, var as u32, *range)?)?;
    }
    Ok(point)
}
