ghost use Rattle.std.specs.Prelude.{◌≡◌, ◌<◌, ◌^◌, IfOk, length};
ghost use Rattle.qm_normal.specs.Normal.{maximised, objective_from, scaled_objective};
ghost use Rattle.qm_normal.specs.PlaceSteps.{AreApart, IsPlacesOf};

use crate::places::Places;
use crate::scaling::{denominator, narrow_row_times};
use crate::totals::{total_of_constants, totals};
use qm_frac::Frac;
use qm_io::Memory;
use qm_model::{Sense, Terms, Var};
use qm_parse::{AstTerm, Named};
use std::alloc::Global;

/// The objective as it is maximised: its terms and its constant over the scale.
#[derive(Drop)]
pub(crate) struct Objective {
    pub terms: Terms,
    pub constant: i128,
    pub scale: u128,
}

/// The objective of these sums, times their least common denominator, unless it is too wide.
fn scaled_objective(
    alloc: Global,
    vars: &[Var],
    sums: &[Frac],
    constant: Frac,
) -> Result<Option<Objective>, Memory>
    requires { length sums.now < 2 ^ 32 }
    ensures { IfOk result (λ found. found ≡ scaled_objective vars.now sums.now constant) }
{
    let Some(scale) = denominator(sums, constant) else {
        return Ok(None);
    };
    let Some(row) = narrow_row_times(alloc, vars, scale, sums, constant)? else {
        return Ok(None);
    };
    Ok(Some(Objective {
        terms: row.terms,
        constant: row.right,
        scale,
    }))
}

/// The objective of the terms as they are maximised, unless it is too wide.
pub(crate) fn objective_from(
    alloc: Global,
    vars: &[Var],
    order: &[Named],
    places: &Places,
    sense: Sense,
    terms: &[AstTerm],
) -> Result<Option<Objective>, Memory>
    requires places { IsPlacesOf order.now places.now }
    requires apart { AreApart order.now }
    requires few { length order.now < 2 ^ 32 }
    ensures { IfOk result (λ found. found ≡ objective_from vars.now order.now (maximised sense terms.now)) }
{
    let Some(sums) = totals(alloc, order, places, sense, terms)? else {
        return Ok(None);
    };
    let Some(constant) = total_of_constants(sense, terms) else {
        return Ok(None);
    };
    scaled_objective(alloc, vars, &sums, constant)
}
