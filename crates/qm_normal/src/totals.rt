ghost use Rattle.std.specs.Prelude.{◌≡◌, ◌<◌, None, Some, IfOk, IfSome, MatchOption, length, if◌then◌else◌};
ghost use Rattle.std.specs.Result.{result_ok};
ghost use Rattle.qm_normal.specs.Normal.{maximised};
ghost use Rattle.qm_normal.specs.PlaceSteps.{AreApart, IsPlacesOf};
ghost use Rattle.qm_normal.specs.Rows.{is_constant, total, totals};
ghost use Rattle.qm_normal.specs.SumSteps.{added_at, plus_constant, maximised_term};

use crate::places::Places;
use qm_frac::Frac;
use qm_io::Memory;
use qm_model::Sense;
use qm_parse::{AstTerm, Named};
use std::alloc::Global;

/// Adds a number at a place, where there is one, and tells whether the addition stays in range.
fn add_at(sums: &mut [Frac], place: Option<u32>, coef: Frac) -> bool
    requires { IfSome place (λ at. at < length sums.old) }
    ensures { (if result then Some sums.new else None) ≡ added_at sums.old place coef }
{
    let Some(place) = place else {
        return true;
    };
    let at = place as usize;
    match sums[at].add(coef) {
        Ok(sum) => {
            sums[at] = sum;
            true
        }
        Err(_) => false,
    }
}

/// A term as it is maximised: that of MINIMIZE is negated.
fn maximised_term(sense: Sense, term: AstTerm) -> AstTerm
    ensures { result ≡ maximised_term sense term }
{
    match sense {
        Sense::Max => term,
        Sense::Min => AstTerm {
            coef: term.coef.neg(),
            name: term.name,
            at: term.at,
        },
    }
}

/// What the terms come to for each variable in game order, as they are maximised; `None` where an addition leaves.
pub(crate) fn totals(
    alloc: Global,
    order: &[Named],
    places: &Places,
    sense: Sense,
    terms: &[AstTerm],
) -> Result<Option<Vec<Frac>>, Memory>
    requires places { IsPlacesOf order.now places.now }
    requires apart { AreApart order.now }
    ensures length { IfOk result (λ found. IfSome found (λ sums. length sums.items ≡ length order.now)) }
    ensures sums { IfOk result (λ found. MatchOption found (result_ok (totals order.now (maximised sense terms.now)) ≡ None) (λ sums. result_ok (totals order.now (maximised sense terms.now)) ≡ Some sums.items)) }
{
    let mut sums = vec![in alloc; Frac::whole(0); order.len()]?;
    for term in terms {
        let term = maximised_term(sense, *term);
        if !add_at(&mut sums, places.place_of(&term), term.coef) {
            return Ok(None);
        }
    }
    Ok(Some(sums))
}

/// A sum with the coefficient of a constant; `None` where the addition leaves. Another term adds nothing.
fn plus_constant(sum: Frac, term: &AstTerm) -> Option<Frac>
    ensures { result ≡ plus_constant sum term.now }
{
    if term.name.is_some() {
        return Some(sum);
    }
    match sum.add(term.coef) {
        Ok(more) => Some(more),
        Err(_) => None,
    }
}

/// What the constants come to, as they are maximised; `None` where an addition leaves.
pub(crate) fn total_of_constants(sense: Sense, terms: &[AstTerm]) -> Option<Frac>
    ensures { result ≡ result_ok (total is_constant (maximised sense terms.now)) }
{
    let mut sum = Frac::whole(0);
    for term in terms {
        let term = maximised_term(sense, *term);
        match plus_constant(sum, &term) {
            Some(more) => sum = more,
            None => return None,
        }
    }
    Some(sum)
}
