ghost use Rattle.std.specs.Prelude.{◌≡◌, ◌≢◌, ◌<◌, ◌+◌, ◌^◌, ◌++◌, ◌∷◌, [], IfOk, MatchOption, false, true, length, pos};
ghost use Rattle.qm_normal.specs.declared.fault.NormalFault.TheVariants as fault;
ghost use Rattle.qm_normal.specs.declared.fault.Which.TheVariants as which;
ghost use Rattle.qm_normal.specs.Answers.{Gives};
ghost use Rattle.qm_normal.specs.BoundSteps.{bounds_by, rows_of_both};
ghost use Rattle.qm_normal.specs.Normal.{bound_rows_from, with_front};
ghost use Rattle.qm_normal.specs.Rows.{bound_row, high_row, low_row};
ghost use Rattle.qm_normal.specs.TableSteps.{IsEndsOf, IsRolesOf};
ghost use Rattle.qm_normal.specs.Variables.{name_of, vars_of};

use crate::ends::Ends;
use crate::fault::{NormalFault, Which};
use crate::names::name_of;
use crate::roles::Roles;
use crate::scaling::{MOST, fits};
use qm_frac::Frac;
use qm_io::{List, Memory};
use qm_model::{Row, Term, Terms, Var};
use qm_parse::{Ast, Named};
use smallvec::SmallVec;
use std::alloc::Global;

/// The exact bounds of a variable.
#[derive(Clone, Copy)]
pub(crate) struct Bounds {
    pub lower: Frac,
    pub upper: Frac,
}

/// The row of one term.
fn single(alloc: Global, var: u32, coef: i128, right: i128) -> Result<Row, Memory>
    requires { coef ≢ pos 0 }
    ensures { IfOk result (λ row. row ≡ record { terms = record { var = var; coef = coef } ∷ []; right = right }) }
{
    let mut items = SmallVec::new(alloc);
    items.push(Term { var, coef })?;
    Ok(Row {
        terms: Terms::new(items),
        right,
    })
}

fn low_row(alloc: Global, var: u32, bound: Frac) -> Result<Row, Memory>
    ensures { IfOk result (λ row. row ≡ low_row var bound) }
{
    let turned = bound.neg();
    single(alloc, var, -bound.den(), turned.num())
}

fn high_row(alloc: Global, var: u32, bound: Frac) -> Result<Row, Memory>
    ensures { IfOk result (λ row. row ≡ high_row var bound) }
{
    single(alloc, var, bound.den(), bound.num())
}

/// Puts the row of a bound at the end where the bound isn't whole, and tells whether it is narrow enough.
fn add_row(vars: &[Var], bound: Frac, row: Row, list: &mut List<Row>) -> Result<bool, Memory>
    ensures { IfOk result (λ narrow. MatchOption (bound_row vars.now bound row) (narrow ≡ false) (λ rows. (narrow ≡ true) × (list.new ≡ list.old ++ rows))) }
{
    if bound.den() == 1 {
        return Ok(true);
    }
    if bound.den().unsigned_abs() > MOST || !fits(vars, &row) {
        return Ok(false);
    }
    list.push(row)?;
    Ok(true)
}

/// Puts the rows of both bounds at the end, the lower one first, and tells whether they are narrow enough.
fn add_rows(
    alloc: Global,
    vars: &[Var],
    var: u32,
    bounds: Bounds,
    list: &mut List<Row>,
) -> Result<bool, Memory>
    ensures { IfOk result (λ narrow. MatchOption (rows_of_both vars.now var bounds) (narrow ≡ false) (λ rows. (narrow ≡ true) × (list.new ≡ list.old ++ rows))) }
{
    let low = low_row(alloc, var, bounds.lower)?;
    if !add_row(vars, bounds.lower, low, list)? {
        return Ok(false);
    }
    let high = high_row(alloc, var, bounds.upper)?;
    add_row(vars, bounds.upper, high, list)
}

/// That the row of a variable's bound is too wide.
fn too_wide(alloc: Global, ast: &Ast, name: u32) -> Result<NormalFault, Memory>
    ensures { IfOk result (λ wide. wide ≡ fault.Wide (which.Bound (name_of ast.now name))) }
{
    Ok(NormalFault::Wide(Which::Bound(name_of(alloc, ast, name)?)))
}

/// The exact bounds of the variable of a name.
fn exact_bounds(roles: &Roles, ends: &Ends, name: u32) -> Bounds
    ensures { result ≡ bounds_by roles.now ends.now name }
{
    Bounds {
        lower: ends.lower_end(roles, name),
        upper: ends.upper_end(roles, name),
    }
}

/// These rows, and behind them the rows of the exact bounds of continuous variables, the first of which has this number.
/// The first that is too wide is a fault.
pub(crate) fn bound_rows(
    alloc: Global,
    ast: &Ast,
    roles: &Roles,
    ends: &Ends,
    vars: &[Var],
    first: u32,
    continuous: &[Named],
    front: List<Row>,
) -> Result<List<Row>, NormalFault>
    requires roles { IsRolesOf ast.now roles.now }
    requires ends { IsEndsOf ast.now ends.now }
    requires vars { vars.now ≡ vars_of ast.now }
    requires few { first + length continuous.now < 2 ^ 32 }
    ensures { Gives result (with_front front (bound_rows_from ast.now first continuous.now)) }
{
    let mut list = front;
    for (i, named) in continuous.iter().enumerate() {
        let bounds = exact_bounds(roles, ends, named.name);
        if !add_rows(alloc, vars, first + i as u32, bounds, &mut list)? {
            return Err(too_wide(alloc, ast, named.name)?);
        }
    }
    Ok(list)
}
