ghost use Rattle.std.specs.Prelude.{◌≡◌, ◌+◌, ◌<◌, ◌^◌, All, IfOk, length};
ghost use Rattle.qm_math.specs.Rounding.{floor_of};
ghost use Rattle.qm_model.specs.Linear.{IsOrdered};
ghost use Rattle.qm_model.specs.Sound.{IsRowOver, IsSound};
ghost use Rattle.qm_trees.specs.CutRules.{AreCuts, IsCut, derivation, sized, unless_broken};
ghost use Rattle.qm_cuts.specs.Answers.{IsAnswer, Keeps};
ghost use Rattle.qm_cuts.specs.Pools.{rows_of};

use crate::fault::CutFault;
use crate::pool::CutPool;
use crate::seen::Seen;
use crate::sight::see_each;
use crate::size::has_size;
use crate::standing::all_there;
use crate::sums::add_right_sides;
use qm_frac::Frac;
use qm_model::{Game, Problem, Row, Var};
use qm_trees::{CutCombo, CutEntry};
use std::alloc::Global;

/// The rounded row of what is seen, unless a coefficient may not stand or the row is too wide.
fn rounded(alloc: Global, vars: &[Var], right: Frac, seen: Seen) -> Result<Row, CutFault>
    requires { IsOrdered seen.terms }
    ensures { IsAnswer (unless_broken seen.broken (sized vars.now (record { terms = seen.terms; right = floor_of right }))) result }
{
    if let Some(var) = seen.broken {
        return Err(CutFault::Broken(var));
    }
    let row = Row::of(alloc, seen.terms.as_slice(), right.floor())?;
    if has_size(vars, &row) {
        Ok(row)
    } else {
        Err(CutFault::Wide)
    }
}

fn derived(
    alloc: Global,
    problem: &Problem,
    earlier: &[Row],
    entries: &[CutEntry],
) -> Result<Row, CutFault>
    requires sound { IsSound problem.now }
    requires over { All (IsRowOver problem.now.vars) earlier.now }
    ensures { IsAnswer (derivation problem.now earlier.now entries.now) result }
{
    if !all_there(problem, earlier, entries) {
        return Err(CutFault::Missing);
    }
    let right = add_right_sides(problem, earlier, entries)?;
    let seen = see_each(alloc, problem, earlier, entries)?;
    rounded(alloc, problem.vars.as_slice(), right, seen)
}

/// The cut that these entries make, among the rows and the cuts of the pool; or the first reason why there is none:
/// something named that isn't there, the first operation that leaves, the first variable whose coefficient may not
/// stand, or a size above 2^126. `Memory`, where there is none for the row.
pub fn derive(alloc: Global, game: &Game, pool: &CutPool, combo: &CutCombo) -> Result<Row, CutFault>
    requires { AreCuts game.now pool.now }
    ensures answer { IsAnswer (derivation game.now (rows_of pool.now) combo.now) result }
    ensures cut { IfOk result (λ row. IsCut game.now (rows_of pool.now) combo.now row) }
{
    derived(alloc, game.problem(), pool.rows(), combo.entries())
}

/// Derives the cut and puts it last in the pool; the answer is its number. A fault leaves the pool as it was.
pub fn add(alloc: Global, pool: &mut CutPool, game: &Game, combo: CutCombo) -> Result<u32, CutFault>
    requires cuts { AreCuts game.now pool.old }
    requires few { length pool.old + 1 < 2 ^ 29 }
    ensures answer { Keeps (derivation game.now (rows_of pool.old) combo) combo pool.old pool.new result }
    ensures cuts { AreCuts game.now pool.new }
{
    let row = derive(alloc, game, pool, &combo)?;
    let place = pool.len() as u32;
    pool.push(combo, row)?;
    Ok(place)
}
