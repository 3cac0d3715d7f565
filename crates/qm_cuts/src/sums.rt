ghost use Rattle.std.specs.Prelude.{◌≡◌, ◌<◌, ◌^◌, unsigned_abs};
ghost use Rattle.qm_trees.specs.CutEntries.{rows_on};
ghost use Rattle.qm_trees.specs.Evaluation.{add_coefficients, add_right_sides, zero};
ghost use Rattle.qm_cuts.specs.Steps.{AreUsable, add_multiple, add_product};

use crate::standing::{coefficient_on, right_on};
use qm_frac::{Frac, Leaves, over_one};
use qm_model::{Problem, Row};
use qm_trees::CutEntry;

/// Each multiplier times its row's right side, added up.
#[tactic(auto, using(crate::proofs::EachEntry::right_more))]
pub(crate) fn add_right_sides(
    problem: &Problem,
    earlier: &[Row],
    entries: &[CutEntry],
) -> Result<Frac, Leaves>
    requires { AreUsable problem.now earlier.now entries.now }
    ensures { result ≡ add_right_sides (rows_on problem.now earlier.now entries.now) zero }
{
    let mut sum = Frac::whole(0);
    for entry in entries {
        let right = right_on(problem, earlier, entry.on);
        sum = add_product(entry.by, right, sum)?;
    }
    Ok(sum)
}

/// To the sum so far, the multiplier times the number.
fn add_product(by: Frac, number: i128, sum: Frac) -> Result<Frac, Leaves>
    requires { unsigned_abs number < 2 ^ 127 }
    ensures { result ≡ add_product by number sum }
{
    let product = by.mul(over_one(number))?;
    sum.add(product)
}

/// The same, where the number is a coefficient that isn't 0.
fn add_multiple(by: Frac, coefficient: i128, sum: Frac) -> Result<Frac, Leaves>
    requires { unsigned_abs coefficient < 2 ^ 127 }
    ensures { result ≡ add_multiple by coefficient sum }
{
    if coefficient == 0 {
        return Ok(sum);
    }
    add_product(by, coefficient, sum)
}

/// Each multiplier times its row's coefficient of the variable, added up.
#[tactic(auto, using(crate::proofs::EachEntry::coefficient_more))]
pub(crate) fn add_coefficients(
    problem: &Problem,
    earlier: &[Row],
    entries: &[CutEntry],
    var: u32,
) -> Result<Frac, Leaves>
    requires { AreUsable problem.now earlier.now entries.now }
    ensures { result ≡ add_coefficients var (rows_on problem.now earlier.now entries.now) zero }
{
    let mut sum = Frac::whole(0);
    for entry in entries {
        let coefficient = coefficient_on(problem, earlier, entry.on, var);
        sum = add_multiple(entry.by, coefficient, sum)?;
    }
    Ok(sum)
}
