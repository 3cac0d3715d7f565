ghost use Rattle.std.specs.Prelude.{◌≡◌, ◌*◌, ◌^◌, ◌≤◌, length, unsigned_abs};
ghost use Rattle.qm_math.specs.Ranges.{greatest_product, least_product, reach};
ghost use Rattle.qm_model.specs.Linear.{HasVarsBelow, IsOrdered};
ghost use Rattle.qm_model.specs.Sizes.{reach_in_box, row_size, terms_size};
ghost use Rattle.qm_model.specs.Boxes.{greatest_value, least_value};

use crate::product::product;
use crate::{Bx, Range, Row, Term};

/// The coefficient times the end of the range that makes it least.
fn least_part(term: Term, range: Range) -> i128
    requires { unsigned_abs term.coef * reach range.low range.high ≤ 2 ^ 126 }
    ensures { result ≡ least_product term.coef range.low range.high }
{
    let end = if term.coef >= 0 {
        range.low
    } else {
        range.high
    };
    product(term.coef, i128::from(end))
}

/// The coefficient times the end of the range that makes it greatest.
fn most_part(term: Term, range: Range) -> i128
    requires { unsigned_abs term.coef * reach range.low range.high ≤ 2 ^ 126 }
    ensures { result ≡ greatest_product term.coef range.low range.high }
{
    let end = if term.coef < 0 { range.low } else { range.high };
    product(term.coef, i128::from(end))
}

fn least_of(terms: &[Term], bx: &[Range]) -> i128
    requires ordered { IsOrdered terms.now }
    requires vars { HasVarsBelow (length bx.now) terms.now }
    requires size { terms_size (reach_in_box bx.now) terms.now ≤ 2 ^ 126 }
    ensures value { result ≡ least_value terms.now bx.now }
    ensures size { unsigned_abs result ≤ terms_size (reach_in_box bx.now) terms.now }
{
    let mut sum: i128 = 0;
    for term in terms {
        sum += least_part(*term, bx[term.var as usize]);
    }
    sum
}

fn most_of(terms: &[Term], bx: &[Range]) -> i128
    requires ordered { IsOrdered terms.now }
    requires vars { HasVarsBelow (length bx.now) terms.now }
    requires size { terms_size (reach_in_box bx.now) terms.now ≤ 2 ^ 126 }
    ensures value { result ≡ greatest_value terms.now bx.now }
    ensures size { unsigned_abs result ≤ terms_size (reach_in_box bx.now) terms.now }
{
    let mut sum: i128 = 0;
    for term in terms {
        sum += most_part(*term, bx[term.var as usize]);
    }
    sum
}

/// The least value of the row's terms over the box.
pub fn least(row: &Row, bx: &Bx) -> i128
    requires vars { HasVarsBelow (length bx.now) row.now.terms }
    requires size { row_size (reach_in_box bx.now) row.now ≤ 2 ^ 126 }
    ensures value { result ≡ least_value row.now.terms bx.now }
    ensures size { unsigned_abs result ≤ terms_size (reach_in_box bx.now) row.now.terms }
{
    least_of(row.terms.as_slice(), bx.as_slice())
}

/// The greatest value of the row's terms over the box.
pub fn most(row: &Row, bx: &Bx) -> i128
    requires vars { HasVarsBelow (length bx.now) row.now.terms }
    requires size { row_size (reach_in_box bx.now) row.now ≤ 2 ^ 126 }
    ensures value { result ≡ greatest_value row.now.terms bx.now }
    ensures size { unsigned_abs result ≤ terms_size (reach_in_box bx.now) row.now.terms }
{
    most_of(row.terms.as_slice(), bx.as_slice())
}
