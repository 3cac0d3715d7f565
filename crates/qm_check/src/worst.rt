ghost use Rattle.std.specs.Prelude.{◌≡◌, ◌*◌, ◌^◌, ◌<◌, ◌≤◌, ◌*ℤ◌, All, length, unsigned_abs};
ghost use Rattle.std.specs.List.{list_all};
ghost use Rattle.qm_math.specs.Ranges.{greatest_product, reach};
ghost use Rattle.qm_model.specs.Boxes.{IsBox, greatest_value};
ghost use Rattle.qm_model.specs.Linear.{HasVarsBelow, IsOrdered};
ghost use Rattle.qm_model.specs.Sizes.{reach_in_box, row_size, terms_size};
ghost use Rattle.qm_trees.specs.Picks.{holds_on_box, meet_on_box};

use qm_model::{Game, Range, Row, Term};

/// The product, where it fits.
pub(crate) fn product(a: i128, b: i128) -> i128
    requires { unsigned_abs a * unsigned_abs b < 2 ^ 127 }
    ensures { result ≡ a *ℤ b }
{
    a * b
}

/// The coefficient times the end of the range that makes it greatest.
fn greatest_part(term: Term, range: Range) -> i128
    requires { unsigned_abs term.coef * reach range.low range.high ≤ 2 ^ 126 }
    ensures { result ≡ greatest_product term.coef range.low range.high }
{
    let end = if term.coef < 0 { range.low } else { range.high };
    product(term.coef, i128::from(end))
}

/// What the terms come to where each is greatest.
fn greatest_of(terms: &[Term], bx: &[Range]) -> i128
    requires ordered { IsOrdered terms.now }
    requires vars { HasVarsBelow (length bx.now) terms.now }
    requires size { terms_size (reach_in_box bx.now) terms.now ≤ 2 ^ 126 }
    ensures { result ≡ greatest_value terms.now bx.now }
{
    let mut sum: i128 = 0;
    for term in terms {
        sum += greatest_part(*term, bx[term.var as usize]);
    }
    sum
}

/// Whether the row holds at the worst ends of the box.
fn holds_on_box(row: &Row, bx: &[Range]) -> bool
    requires vars { HasVarsBelow (length bx.now) row.now.terms }
    requires size { row_size (reach_in_box bx.now) row.now ≤ 2 ^ 126 }
    ensures { result ≡ holds_on_box bx.now row.now }
{
    greatest_of(row.terms.as_slice(), bx) <= row.right
}

/// Whether each row holds at the worst ends of the box.
fn hold_on_box(rows: &[Row], bx: &[Range]) -> bool
    requires vars { All (λ row. HasVarsBelow (length bx.now) row.terms) rows.now }
    requires size { All (λ row. row_size (reach_in_box bx.now) row ≤ 2 ^ 126) rows.now }
    ensures { result ≡ list_all (holds_on_box bx.now) rows.now }
{
    for row in rows {
        if !holds_on_box(row, bx) {
            return false;
        }
    }
    true
}

/// Whether each uncertainty row holds at the worst ends of the box.
pub(crate) fn uncertainty_holds(game: &Game, bx: &[Range]) -> bool
    requires { IsBox game.now.vars bx.now }
    ensures { result ≡ meet_on_box game.now bx.now }
{
    hold_on_box(game.problem().urows.as_slice(), bx)
}
