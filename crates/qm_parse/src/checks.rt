ghost use Rattle.std.specs.Prelude.{◌≡◌, IfOk};
ghost use Rattle.qm_parse.specs.Checks.{both_players, infinite, name_fault, offended, twice, unknown, unordered, without_upper};
ghost use Rattle.qm_parse.specs.SurveySteps.{IsSurveyOf};

use crate::ast::{Ast, Named};
use crate::bound_checks;
use crate::marks::Marks;
use crate::offence::{NameFault, Offence};
use crate::survey::Survey;
use crate::twice::repeated;
use qm_io::Memory;
use std::alloc::Global;

/// The first offence of a text: by the kinds in their order, and of each kind by its first place.
pub(crate) fn name_fault(alloc: Global, ast: &Ast) -> Result<Option<NameFault>, Memory>
    ensures { IfOk result (λ found. found ≡ name_fault ast.now) }
{
    if let Some(fault) = offended(Offence::BothPlayers, both_players(alloc, ast)?) {
        return Ok(Some(fault));
    }
    if let Some(fault) = offended(Offence::Twice, twice(alloc, ast)?) {
        return Ok(Some(fault));
    }
    let order = Marks::of(alloc, ast.order.as_slice())?;
    let survey = Survey::of(alloc, &order, ast)?;
    if let Some(fault) = offended(Offence::Unknown, unknown(&survey, ast)) {
        return Ok(Some(fault));
    }
    if let Some(fault) = offended(Offence::Unordered, survey.unordered) {
        return Ok(Some(fault));
    }
    if let Some(fault) = offended(Offence::Infinite, infinite(ast)) {
        return Ok(Some(fault));
    }
    Ok(offended(Offence::NoUpper, without_upper(alloc, ast)?))
}

/// The first name of ALL that stands in EXISTS too.
fn both_players(alloc: Global, ast: &Ast) -> Result<Option<Named>, Memory>
    ensures { IfOk result (λ found. found ≡ both_players ast.now) }
{
    let existential = Marks::of(alloc, ast.existential.as_slice())?;
    Ok(existential.first_in(ast.universal.as_slice()))
}

/// The first name of ORDER that stands there a second time.
fn twice(alloc: Global, ast: &Ast) -> Result<Option<Named>, Memory>
    ensures { IfOk result (λ found. found ≡ twice ast.now) }
{
    repeated(alloc, ast.order.as_slice())
}

/// The first name of ORDER that is no variable.
fn unknown(survey: &Survey, ast: &Ast) -> Option<Named>
    requires { IsSurveyOf ast.now survey.now }
    ensures { result ≡ unknown ast.now }
{
    survey.used.first_missing(ast.order.as_slice())
}

/// The name of the first bound without a number.
fn infinite(ast: &Ast) -> Option<Named>
    ensures { result ≡ infinite ast.now }
{
    bound_checks::infinite(ast.bounds.as_slice())
}

/// The first name of ORDER that is not in BINARIES and has no upper bound.
fn without_upper(alloc: Global, ast: &Ast) -> Result<Option<Named>, Memory>
    ensures { IfOk result (λ found. found ≡ without_upper ast.now) }
{
    let mut bounded = Marks::of(alloc, ast.binaries.as_slice())?;
    bound_checks::mark_bounded(&mut bounded, ast.bounds.as_slice())?;
    Ok(bounded.first_missing(ast.order.as_slice()))
}

/// The offence of a name, where there is one.
#[tactic(auto, unfolding(crate::specs::Checks::offended))]
fn offended(offence: Offence, found: Option<Named>) -> Option<NameFault>
    ensures { result ≡ offended offence found }
{
    match found {
        Some(named) => Some(NameFault {
            offence,
            name: named.name,
            at: named.at,
        }),
        None => None,
    }
}
