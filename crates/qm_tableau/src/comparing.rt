ghost use Rattle.std.specs.Prelude.{◌≡◌, ◌<◌, ◌^◌, suc, Ok, All, length, map, pos, unsigned_abs, ◌<ℤ◌, ◌*ℤ◌};
ghost use Rattle.std.specs.Ordering.{int_cmp};
ghost use Rattle.qm_frac.specs.Checked.{divided};
ghost use Rattle.qm_tableau.specs.Tables.{entry_of};
ghost use Rattle.qm_tableau.specs.Leaving.{placed};
ghost use Rattle.qm_tableau.specs.Rule.{is_greater};
ghost use Rattle.qm_tableau.specs.Wholes.{IsSmall, IsSmallRow, at_place, fractions_of};

use crate::LeavesAt;
use crate::grid::Grid;
use crate::sizes::product;
use crate::wholes::Wholes;
use qm_frac::Frac;
use std::cmp::Ordering;

/// The entry in column k of row i over the column's entry in the leaving row.
fn quotient(i: u32, k: u32, entry: Frac, by: Frac) -> Result<Frac, LeavesAt>
    requires { 0 < unsigned_abs by.num }
    ensures { result ≡ placed i k (divided entry by) }
{
    match entry.div(by) {
        Ok(quotient) => Ok(quotient),
        Err(leaves) => Err(LeavesAt {
            row: i,
            col: k,
            leaves,
        }),
    }
}

/// Whether column k over its entry in the leaving row is lexicographically greater than the best.
pub fn is_greater_in_fractions(
    numbers: &Grid,
    leaving: &[Frac],
    k: u32,
    best: u32,
) -> Result<bool, LeavesAt>
    requires few { length numbers.now.rows < 2 ^ 32 }
    requires leaving { length leaving.now ≡ numbers.now.width }
    requires k { k < numbers.now.width }
    requires best { best < numbers.now.width }
    requires by { 0 < unsigned_abs (entry_of leaving.now k).num }
    requires best_by { 0 < unsigned_abs (entry_of leaving.now best).num }
    ensures { result ≡ is_greater k (entry_of leaving.now k) best (entry_of leaving.now best) 0 numbers.now.rows }
{
    let by = leaving[k as usize];
    let best_by = leaving[best as usize];
    for i in 0..numbers.height() {
        let row = numbers.row(i);
        let x = quotient(i as u32, k, row[k as usize], by)?;
        let y = quotient(i as u32, best, row[best as usize], best_by)?;
        match x.cmp(y) {
            Ordering::Less => return Ok(false),
            Ordering::Equal => {}
            Ordering::Greater => return Ok(true),
        }
    }
    Ok(false)
}

/// The order of a / p and b / q, for p and q above 0, by two products.
fn order_of(a: i64, p: i64, b: i64, q: i64) -> Ordering
    requires a { IsSmall a }
    requires p { IsSmall p }
    requires b { IsSmall b }
    requires q { IsSmall q }
    ensures { result ≡ int_cmp (a *ℤ q) (b *ℤ p) }
{
    if a == 0 && b == 0 {
        return Ordering::Equal;
    }
    product(a, q).cmp(&product(b, p))
}

/// The order of a row's quotients in the columns k and `best`, each entry over the leaving row's.
fn order_in(row: &[i64], leaving: &[i64], k: usize, best: usize) -> Ordering
    requires row { IsSmallRow row.now }
    requires leaving { IsSmallRow leaving.now }
    requires same { length leaving.now ≡ length row.now }
    requires k { suc k < length row.now }
    requires best { suc best < length row.now }
    ensures { result ≡ int_cmp (at_place row.now (suc k) *ℤ at_place leaving.now (suc best)) (at_place row.now (suc best) *ℤ at_place leaving.now (suc k)) }
{
    order_of(row[k + 1], leaving[k + 1], row[best + 1], leaving[best + 1])
}

/// The same on rows of whole numbers, where no operation leaves.
pub fn is_greater_in_wholes(numbers: &Wholes, leaving: &[i64], k: usize, best: usize) -> bool
    requires rows { All IsSmallRow numbers.now.rows }
    requires row { IsSmallRow leaving.now }
    requires leaving { length leaving.now ≡ numbers.now.width }
    requires k { suc k < numbers.now.width }
    requires best { suc best < numbers.now.width }
    requires by { pos 0 <ℤ at_place leaving.now (suc k) }
    requires best_by { pos 0 <ℤ at_place leaving.now (suc best) }
    ensures { Ok result ≡ is_greater k (entry_of (fractions_of leaving.now) k) best (entry_of (fractions_of leaving.now) best) 0 (map fractions_of numbers.now.rows) }
{
    for i in 0..numbers.height() {
        match order_in(numbers.row(i), leaving, k, best) {
            Ordering::Less => return false,
            Ordering::Equal => {}
            Ordering::Greater => return true,
        }
    }
    false
}
