ghost use Rattle.std.specs.Prelude.{◌≡◌, ◌<◌, ◌≤◌, ◌^◌, None, length};
ghost use Rattle.qm_parse.specs.Checks.{name_fault};
ghost use Rattle.qm_normal.specs.Answers.{Gives};
ghost use Rattle.qm_normal.specs.Limits.{variables_fault};
ghost use Rattle.qm_normal.specs.Normal.{objective_form, problem_form, problem_with, rows_of};
ghost use Rattle.qm_normal.specs.PlaceSteps.{AreApart, IsPlacesOf};
ghost use Rattle.qm_normal.specs.TableSteps.{IsEndsOf, IsGameOrderOf, IsRolesOf};
ghost use Rattle.qm_normal.specs.Variables.{game_order, vars_of, whole_names};

use crate::bound_rows::bound_rows;
use crate::ends::Ends;
use crate::fault::{NormalFault, Which};
use crate::limits::rows_fault;
use crate::objective::{Objective, objective_from};
use crate::order::GameOrder;
use crate::places::Places;
use crate::roles::Roles;
use crate::rows::{Section, rows_of_section};
use crate::variables::vars;
use qm_io::List;
use qm_model::{Problem, Row, Var};
use qm_parse::{Ast, Named};
use std::alloc::Global;

/// The rows of the text, and behind them those of exact bounds.
#[tactic(auto, unfolding(crate::specs::RowSteps::rows_in, crate::specs::Normal::bind))]
fn rows(
    alloc: Global,
    ast: &Ast,
    roles: &Roles,
    ends: &Ends,
    vars: &[Var],
    order: &GameOrder,
    places: &Places,
) -> Result<List<Row>, NormalFault>
    requires roles { IsRolesOf ast.now roles.now }
    requires ends { IsEndsOf ast.now ends.now }
    requires vars { vars.now ≡ vars_of ast.now }
    requires order { IsGameOrderOf ast.now order.now }
    requires places { IsPlacesOf order.now.names places.now }
    requires apart { AreApart order.now.names }
    requires few { length order.now.names < 2 ^ 31 }
    requires numbers { length ast.now.rows < 2 ^ 31 }
    ensures { Gives result (rows_of ast.now) }
{
    let front = rows_of_section(alloc, Section::Rows, ast, vars, order.names(), places)?;
    let first = order.wholes() as u32;
    bound_rows(
        alloc,
        ast,
        roles,
        ends,
        vars,
        first,
        order.continuous(),
        front,
    )
}

/// The objective as it is maximised.
#[tactic(auto, unfolding(crate::specs::Normal::narrow))]
fn objective(
    alloc: Global,
    ast: &Ast,
    vars: &[Var],
    order: &[Named],
    places: &Places,
) -> Result<Objective, NormalFault>
    requires vars { vars.now ≡ vars_of ast.now }
    requires order { order.now ≡ game_order ast.now }
    requires places { IsPlacesOf order.now places.now }
    requires apart { AreApart order.now }
    requires few { length order.now < 2 ^ 31 }
    ensures { Gives result (objective_form ast.now) }
{
    let terms = ast.objective.as_slice();
    match objective_from(alloc, vars, order, places, ast.sense, terms)? {
        Some(objective) => Ok(objective),
        None => Err(NormalFault::Wide(Which::Objective)),
    }
}

/// The problem of a text within scope, whose variables are within limits.
pub(crate) fn problem(
    alloc: Global,
    ast: &Ast,
    roles: &Roles,
    ends: &Ends,
) -> Result<Problem, NormalFault>
    requires names { name_fault ast.now ≡ None }
    requires roles { IsRolesOf ast.now roles.now }
    requires ends { IsEndsOf ast.now ends.now }
    requires variables { variables_fault ast.now ≡ None }
    requires rows { length ast.now.rows < 2 ^ 31 }
    requires uncertain { length ast.now.uncertain < 2 ^ 31 }
    ensures { Gives result (problem_form ast.now) }
{
    let order = GameOrder::of(alloc, ast, roles)?;
    let names = order.names();
    let vars = vars(alloc, ast, roles, ends, names)?;
    let xs = vars.as_slice();
    let places = Places::of(alloc, names)?;
    let rows = rows(alloc, ast, roles, ends, xs, &order, &places)?;
    let urows = rows_of_section(alloc, Section::Uncertain, ast, xs, names, &places)?;
    let objective = objective(alloc, ast, xs, names, &places)?;
    if let Some(fault) = rows_fault(rows.as_slice(), urows.as_slice()) {
        return Err(fault);
    }
    let wholes = order.wholes() as u32;
    Ok(problem_with(ast, vars, wholes, rows, urows, objective))
}

/// The problem of these parts.
fn problem_with(
    ast: &Ast,
    vars: List<Var>,
    wholes: u32,
    rows: List<Row>,
    urows: List<Row>,
    objective: Objective,
) -> Problem
    requires vars { vars ≡ vars_of ast.now }
    requires wholes { wholes ≡ length (whole_names ast.now) }
    requires narrow { objective.scale ≤ 2 ^ 126 }
    ensures { result ≡ problem_with ast.now rows urows objective }
{
    Problem {
        sense: ast.sense,
        vars,
        wholes,
        rows,
        urows,
        terms: objective.terms,
        constant: objective.constant,
        scale: objective.scale as i128,
    }
}
