ghost use Rattle.std.specs.Prelude.{◌≡◌, ◌&&◌, ◌||◌, not, Some, IfOk, if◌then◌else◌};
ghost use Rattle.qm_parse.specs.Checks.{first_such, term_use, term_uses};
ghost use Rattle.qm_normal.specs.Scopes.{continuous_early, continuous_universal, exists_in_uncertainty, scope_fault};
ghost use Rattle.qm_normal.specs.TableSteps.{IsRolesOf, universal_by, whole_by};

use crate::fault::NormalFault;
use crate::names::name_of;
use crate::roles::Roles;
use qm_io::Memory;
use qm_parse::{Ast, AstTerm, Named};
use std::alloc::Global;

/// The first fault of scope of a text.
#[tactic(auto, unfolding(crate::specs::Scopes::told))]
pub(crate) fn scope_fault(
    alloc: Global,
    ast: &Ast,
    roles: &Roles,
) -> Result<Option<NormalFault>, Memory>
    requires { IsRolesOf ast.now roles.now }
    ensures { IfOk result (λ fault. fault ≡ scope_fault ast.now) }
{
    if let Some(named) = continuous_universal(ast, roles) {
        let name = name_of(alloc, ast, named.name)?;
        return Ok(Some(NormalFault::ContinuousUniversal(name, named.at)));
    }
    if let Some(named) = continuous_early(ast, roles) {
        let name = name_of(alloc, ast, named.name)?;
        return Ok(Some(NormalFault::ContinuousEarly(name, named.at)));
    }
    if let Some(named) = exists_in_uncertainty(ast, roles) {
        let name = name_of(alloc, ast, named.name)?;
        return Ok(Some(NormalFault::ExistsInUncertainty(name, named.at)));
    }
    Ok(None)
}

/// The first universal variable of ORDER that is continuous.
fn continuous_universal(ast: &Ast, roles: &Roles) -> Option<Named>
    requires { IsRolesOf ast.now roles.now }
    ensures { result ≡ continuous_universal ast.now }
{
    let order = ast.order.as_slice();
    for named in order {
        if is_continuous_universal(roles, named.name) {
            return Some(*named);
        }
    }
    None
}

fn is_continuous_universal(roles: &Roles, name: u32) -> bool
    ensures { result ≡ (not (whole_by roles.now name) && universal_by roles.now name) }
{
    !roles.is_whole(name) && roles.is_universal(name)
}

/// The first continuous variable of ORDER that stands before a universal one, found from behind.
fn continuous_early(ast: &Ast, roles: &Roles) -> Option<Named>
    requires { IsRolesOf ast.now roles.now }
    ensures { result ≡ continuous_early ast.now }
{
    let order = ast.order.as_slice();
    let mut early = None;
    let mut is_followed = false;
    let mut at = order.len();
    while at > 0 {
        at -= 1;
        let named = order[at];
        early = earlier(roles, named, is_followed, early);
        is_followed = is_universal_from(roles, named, is_followed);
    }
    early
}

/// A continuous variable that a universal one follows; or else the one that was found behind it.
fn earlier(roles: &Roles, named: Named, is_followed: bool, behind: Option<Named>) -> Option<Named>
    ensures { result ≡ (if not (whole_by roles.now named.name) && is_followed then Some named else behind) }
{
    if !roles.is_whole(named.name) && is_followed {
        Some(named)
    } else {
        behind
    }
}

/// Whether the variable or one behind it is universal.
fn is_universal_from(roles: &Roles, named: Named, is_followed: bool) -> bool
    ensures { result ≡ (universal_by roles.now named.name || is_followed) }
{
    roles.is_universal(named.name) || is_followed
}

/// The first place of an existential variable in the uncertainty rows.
fn exists_in_uncertainty(ast: &Ast, roles: &Roles) -> Option<Named>
    requires { IsRolesOf ast.now roles.now }
    ensures { result ≡ exists_in_uncertainty ast.now }
{
    let rows = ast.uncertain.as_slice();
    for row in rows {
        if let Some(named) = existential_in(row.terms.as_slice(), roles) {
            return Some(named);
        }
    }
    None
}

/// The first place of an existential variable in terms.
fn existential_in(terms: &[AstTerm], roles: &Roles) -> Option<Named>
    ensures { result ≡ first_such (λ named. not (universal_by roles.now named.name)) (term_uses terms.now) }
{
    for term in terms {
        if let Some(named) = existential(term, roles) {
            return Some(named);
        }
    }
    None
}

/// The place of the variable of a term, where it is existential.
#[tactic(auto, unfolding(qm_parse::specs::Checks::first_such, qm_parse::specs::Checks::term_use))]
fn existential(term: &AstTerm, roles: &Roles) -> Option<Named>
    ensures { result ≡ first_such (λ named. not (universal_by roles.now named.name)) (term_use term.now) }
{
    match term.name {
        Some(name) if !roles.is_universal(name) => Some(Named { name, at: term.at }),
        _ => None,
    }
}
