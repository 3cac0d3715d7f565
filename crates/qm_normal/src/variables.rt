ghost use Rattle.std.specs.Prelude.{◌≡◌, ◌≤◌, ◌^◌, unsigned_abs, All, IsTrue, None, IfOk, map, if◌then◌else◌};
ghost use Rattle.qm_model.specs.declared.variable.Player.TheVariants.{Exists, All as Universal};
ghost use Rattle.qm_normal.specs.Limits.{fits_domain, variables_fault};
ghost use Rattle.qm_normal.specs.TableSteps.{IsEndsOf, IsRolesOf, high_by, low_by, universal_by, var_by};
ghost use Rattle.qm_normal.specs.Variables.{game_order, vars_of};

use crate::ends::Ends;
use crate::names::name_of;
use crate::roles::Roles;
use qm_io::{List, Memory};
use qm_model::{Player, Var};
use qm_parse::{Ast, Named};
use std::alloc::Global;

/// The variables of a text whose domains are within the limits, given their names in game order.
pub(crate) fn vars(
    alloc: Global,
    ast: &Ast,
    roles: &Roles,
    ends: &Ends,
    order: &[Named],
) -> Result<List<Var>, Memory>
    requires roles { IsRolesOf ast.now roles.now }
    requires ends { IsEndsOf ast.now ends.now }
    requires domains { variables_fault ast.now ≡ None }
    requires order { order.now ≡ game_order ast.now }
    ensures { IfOk result (λ vars. vars ≡ vars_of ast.now) }
{
    vars_in(alloc, ast, roles, ends, order)
}

/// The variables of these names.
fn vars_in(
    alloc: Global,
    ast: &Ast,
    roles: &Roles,
    ends: &Ends,
    order: &[Named],
) -> Result<List<Var>, Memory>
    requires { All (λ named. IsTrue (fits_domain (var_by ast.now roles.now ends.now named))) order.now }
    ensures { IfOk result (λ vars. vars ≡ map (var_by ast.now roles.now ends.now) order.now) }
{
    let mut vars = List::new(alloc);
    for named in order {
        vars.push(var_of(alloc, ast, roles, ends, *named)?)?;
    }
    Ok(vars)
}

fn var_of(alloc: Global, ast: &Ast, roles: &Roles, ends: &Ends, named: Named) -> Result<Var, Memory>
    requires { IsTrue (fits_domain (var_by ast.now roles.now ends.now named)) }
    ensures { IfOk result (λ var. var ≡ var_by ast.now roles.now ends.now named) }
{
    Ok(Var {
        name: name_of(alloc, ast, named.name)?,
        player: player(roles, named.name),
        whole: roles.is_whole(named.name),
        low: near_low(roles, ends, named.name),
        high: near_high(roles, ends, named.name),
    })
}

fn player(roles: &Roles, name: u32) -> Player
    ensures { result ≡ (if universal_by roles.now name then Universal else Exists) }
{
    if roles.is_universal(name) {
        Player::All
    } else {
        Player::Exists
    }
}

/// The lower bound as a whole number: rounded inwards for a whole variable, and else outwards.
pub(crate) fn low(roles: &Roles, ends: &Ends, name: u32) -> i128
    ensures { result ≡ low_by roles.now ends.now name }
{
    let end = ends.lower_end(roles, name);
    if roles.is_whole(name) {
        end.ceil()
    } else {
        end.floor()
    }
}

/// The same of the upper bound.
pub(crate) fn high(roles: &Roles, ends: &Ends, name: u32) -> i128
    ensures { result ≡ high_by roles.now ends.now name }
{
    let end = ends.upper_end(roles, name);
    if roles.is_whole(name) {
        end.floor()
    } else {
        end.ceil()
    }
}

/// A lower bound that is known to be near 0.
fn near_low(roles: &Roles, ends: &Ends, name: u32) -> i64
    requires { unsigned_abs (low_by roles.now ends.now name) ≤ 2 ^ 50 }
    ensures { result ≡ low_by roles.now ends.now name }
{
    low(roles, ends, name) as i64
}

/// An upper bound that is known to be near 0.
fn near_high(roles: &Roles, ends: &Ends, name: u32) -> i64
    requires { unsigned_abs (high_by roles.now ends.now name) ≤ 2 ^ 50 }
    ensures { result ≡ high_by roles.now ends.now name }
{
    high(roles, ends, name) as i64
}
