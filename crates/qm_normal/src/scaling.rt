ghost use Rattle.std.specs.Prelude.{◌≡◌, ◌<◌, ◌≤◌, ◌*◌, ◌+◌, ◌++◌, ◌∷◌, [], ◌^◌, ℕ, All, IfOk, IfSome, OnOk, SomeIff, length, map, nat_le, unsigned_abs};
ghost use Rattle.qm_model.specs.Sizes.{reach_in_vars, row_size};
ghost use Rattle.qm_math.specs.Ranges.{reach};
ghost use Rattle.qm_normal.specs.Rows.{common_denominator, common_multiple, narrow_row, nonzero_from, times};
ghost use Rattle.qm_normal.specs.RowSteps.{IsNarrowRow};

use qm_frac::{Frac, gcd};
use qm_io::Memory;
use qm_model::{Row, Term, Terms, Var};
use smallvec::SmallVec;
use std::alloc::Global;

/// The greatest denominator and the greatest size: 2^126.
pub(crate) const MOST: u128 = 1 << 126;

/// A magnitude, unless it exceeds 2^126.
fn limited(n: u128) -> Option<u128>
    ensures { SomeIff result (n ≤ 2 ^ 126) n }
{
    if n <= MOST { Some(n) } else { None }
}

/// The least number that the value's denominator and another number divide.
fn multiple(value: Frac, d: u128) -> Option<u128>
    requires { d ≤ 2 ^ 126 }
    ensures { SomeIff result (common_multiple value.den d ≤ 2 ^ 126) (common_multiple value.den d) }
{
    let den = value.den();
    let part = d / gcd(den, d as i128);
    match den.unsigned_abs().checked_mul(part) {
        Some(product) => limited(product),
        None => None,
    }
}

/// The same, where the other number may exceed 2^126 already.
fn multiple_of(value: Frac, other: Option<u128>) -> Option<u128>
    requires { IfSome other (λ d. d ≤ 2 ^ 126) }
    ensures { (d : ℕ) → SomeIff other (d ≤ 2 ^ 126) d → SomeIff result (common_multiple value.den d ≤ 2 ^ 126) (common_multiple value.den d) }
{
    let _positive = value.den();
    match other {
        Some(d) => multiple(value, d),
        None => None,
    }
}

/// The least common denominator.
fn denominator_of_sums(sums: &[Frac]) -> Option<u128>
    ensures { SomeIff result (common_denominator sums.now ≤ 2 ^ 126) (common_denominator sums.now) }
{
    let mut common = Some(1);
    for done in 0..sums.len() {
        common = multiple_of(sums[sums.len() - 1 - done], common);
    }
    common
}

/// The least common denominator of the sums and the right side.
pub(crate) fn denominator(sums: &[Frac], right: Frac) -> Option<u128>
    ensures { SomeIff result (common_denominator (right ∷ sums.now) ≤ 2 ^ 126) (common_denominator (right ∷ sums.now)) }
{
    multiple_of(right, denominator_of_sums(sums))
}

/// The fraction times a number that its denominator divides.
fn times(d: u128, value: Frac) -> Option<i128>
    requires { d ≤ 2 ^ 126 }
    ensures { SomeIff result (unsigned_abs (times d value) < 2 ^ 127) (times d value) }
{
    let part = (d / value.den().unsigned_abs()) as i128;
    match value.num().checked_mul(part) {
        Some(i128::MIN) => None,
        product => product,
    }
}

/// Puts the coefficient of a variable at the end, unless it is 0.
fn push_nonzero(items: &mut SmallVec<Term, 8>, var: u32, coef: i128) -> Result<(), Memory>
    ensures { OnOk result (items.new.items ≡ items.old.items ++ nonzero_from var (coef ∷ [])) }
{
    if coef != 0 {
        items.push(Term { var, coef })?;
    }
    Ok(())
}

/// The sums times a number that their denominators divide, but for zeros, as terms.
fn terms_times(alloc: Global, d: u128, sums: &[Frac]) -> Result<Option<Terms>, Memory>
    requires small { d ≤ 2 ^ 126 }
    requires few { length sums.now < 2 ^ 32 }
    ensures { IfOk result (λ found. SomeIff found (All (λ sum. unsigned_abs (times d sum) < 2 ^ 127) sums.now) (nonzero_from 0 (map (times d) sums.now))) }
{
    let mut items = SmallVec::new(alloc);
    for (var, sum) in sums.iter().enumerate() {
        match times(d, *sum) {
            Some(coef) => push_nonzero(&mut items, var as u32, coef)?,
            None => return Ok(None),
        }
    }
    Ok(Some(Terms::new(items)))
}

/// How far the variable of a number reaches; 1 where there is none.
fn reach(vars: &[Var], var: u32) -> u128
    ensures { result ≡ reach_in_vars vars.now var }
{
    let at = var as usize;
    if at < vars.len() {
        reach_of(&vars[at])
    } else {
        1
    }
}

fn reach_of(x: &Var) -> u128
    ensures { result ≡ reach x.now.low x.now.high }
{
    let farther = x.low.unsigned_abs().max(x.high.unsigned_abs());
    u128::from(farther.max(1))
}

/// A size with that of one term more.
fn size_with(size: u128, coef: i128, reach: u128) -> Option<u128>
    ensures { SomeIff result (size + unsigned_abs coef * reach ≤ 2 ^ 126) (size + unsigned_abs coef * reach) }
{
    let product = coef.unsigned_abs().checked_mul(reach)?;
    let sum = size.checked_add(product)?;
    limited(sum)
}

/// Whether the size of a row is at most 2^126.
pub(crate) fn fits(vars: &[Var], row: &Row) -> bool
    ensures { result ≡ nat_le (row_size (reach_in_vars vars.now) row.now) (2 ^ 126) }
{
    let mut size = row.right.unsigned_abs();
    for term in row.terms.as_slice() {
        match size_with(size, term.coef, reach(vars, term.var)) {
            Some(more) => size = more,
            None => return false,
        }
    }
    size <= MOST
}

/// The row of these sums and this right side, times their least common denominator, unless it is too wide.
pub(crate) fn narrow_row(
    alloc: Global,
    vars: &[Var],
    sums: &[Frac],
    right: Frac,
) -> Result<Option<Row>, Memory>
    requires { length sums.now < 2 ^ 32 }
    ensures row { IfOk result (λ found. found ≡ narrow_row vars.now sums.now right) }
    ensures narrow { IfOk result (λ found. IfSome found IsNarrowRow) }
{
    match denominator(sums, right) {
        Some(d) => narrow_row_times(alloc, vars, d, sums, right),
        None => Ok(None),
    }
}

/// The same, given the least common denominator.
pub(crate) fn narrow_row_times(
    alloc: Global,
    vars: &[Var],
    d: u128,
    sums: &[Frac],
    right: Frac,
) -> Result<Option<Row>, Memory>
    requires common { d ≡ common_denominator (right ∷ sums.now) }
    requires small { d ≤ 2 ^ 126 }
    requires few { length sums.now < 2 ^ 32 }
    ensures row { IfOk result (λ found. found ≡ narrow_row vars.now sums.now right) }
    ensures narrow { IfOk result (λ found. IfSome found IsNarrowRow) }
{
    let Some(right) = times(d, right) else {
        return Ok(None);
    };
    let Some(terms) = terms_times(alloc, d, sums)? else {
        return Ok(None);
    };
    let row = Row { terms, right };
    if fits(vars, &row) {
        Ok(Some(row))
    } else {
        Ok(None)
    }
}
