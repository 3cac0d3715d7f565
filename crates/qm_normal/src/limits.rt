ghost use Rattle.std.specs.Prelude.{◌≡◌, ◌≤◌, ◌*◌, ◌^◌, unsigned_abs, nat_le, length, IfOk};
ghost use Rattle.qm_normal.specs.Limits.{large_domain, rows_fault, terms_in, variables_fault};
ghost use Rattle.qm_normal.specs.TableSteps.{IsEndsOf, IsRolesOf, fits_between, fits_by};

use crate::ends::Ends;
use crate::fault::{Counted, NormalFault};
use crate::names::name_of;
use crate::roles::Roles;
use crate::variables::{high, low};
use qm_io::Memory;
use qm_model::Row;
use qm_parse::{Ast, Named};
use std::alloc::Global;

/// The greatest magnitude of a bound, 2^50.
const FARTHEST: u128 = 1_125_899_906_842_624;

/// How far the bounds of a whole variable may be apart.
const WIDEST: i128 = 1_048_575;

const MOST_VARIABLES: usize = 1_000;

const MOST_ROWS: u64 = 2_000;

const MOST_TERMS: u64 = 200_000;

/// Too many variables, or else the first one in ORDER whose domain is too large.
#[tactic(auto, unfolding(crate::specs::Limits::domain_fault))]
pub(crate) fn variables_fault(
    alloc: Global,
    ast: &Ast,
    roles: &Roles,
    ends: &Ends,
) -> Result<Option<NormalFault>, Memory>
    requires roles { IsRolesOf ast.now roles.now }
    requires ends { IsEndsOf ast.now ends.now }
    ensures { IfOk result (λ fault. fault ≡ variables_fault ast.now) }
{
    let count = ast.order.len();
    if count > MOST_VARIABLES {
        return Ok(Some(NormalFault::Many(Counted::Variables, count as u64)));
    }
    match large_domain(ast, roles, ends) {
        Some(named) => {
            let name = name_of(alloc, ast, named.name)?;
            Ok(Some(NormalFault::Domain(name)))
        }
        None => Ok(None),
    }
}

/// The first variable of ORDER whose domain is too large.
fn large_domain(ast: &Ast, roles: &Roles, ends: &Ends) -> Option<Named>
    requires roles { IsRolesOf ast.now roles.now }
    requires ends { IsEndsOf ast.now ends.now }
    ensures { result ≡ large_domain ast.now }
{
    let order = ast.order.as_slice();
    for named in order {
        if !fits_domain(roles, ends, named.name) {
            return Some(*named);
        }
    }
    None
}

fn fits_domain(roles: &Roles, ends: &Ends, name: u32) -> bool
    ensures { result ≡ fits_by roles.now ends.now name }
{
    fits(
        roles.is_whole(name),
        low(roles, ends, name),
        high(roles, ends, name),
    )
}

/// Whether bounds aren't too far from 0 and, for a whole variable, not too far apart.
fn fits(whole: bool, low: i128, high: i128) -> bool
    ensures { result ≡ fits_between whole low high }
{
    is_near(low) && is_near(high) && (!whole || high - low <= WIDEST)
}

fn is_near(bound: i128) -> bool
    ensures { result ≡ nat_le (unsigned_abs bound) (2 ^ 50) }
{
    bound.unsigned_abs() <= FARTHEST
}

/// Too many rows, or else too many terms.
pub(crate) fn rows_fault(rows: &[Row], urows: &[Row]) -> Option<NormalFault>
    ensures { result ≡ rows_fault rows.now urows.now }
{
    let count = rows.len() as u64 + urows.len() as u64;
    if count > MOST_ROWS {
        return Some(NormalFault::Many(Counted::Rows, count));
    }
    let terms = terms_in(rows) + terms_in(urows);
    if terms > MOST_TERMS {
        return Some(NormalFault::Many(Counted::Terms, terms));
    }
    None
}

/// How many terms not too many rows have.
fn terms_in(rows: &[Row]) -> u64
    requires { length rows.now ≤ 2000 }
    ensures count { result ≡ terms_in rows.now }
    ensures few { result ≤ 2000 * 2 ^ 32 }
{
    let mut count = 0;
    for row in rows {
        count += terms_of(row);
    }
    count
}

/// How many terms a row has: at most one for each number of a variable.
fn terms_of(row: &Row) -> u64
    ensures count { result ≡ length row.now.terms }
    ensures few { result ≤ 2 ^ 32 }
{
    let terms = row.terms.as_slice();
    if terms.is_empty() {
        return 0;
    }
    // Numbers of variables ascend, so that the last one bounds how many there are.
    let _greatest = terms[terms.len() - 1].var;
    terms.len() as u64
}
