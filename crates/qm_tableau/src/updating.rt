ghost use Rattle.std.specs.Prelude.{◌≡◌, ◌<◌, ◌≤◌, ◌^◌, ℕ, true, pos, ◌*ℤ◌, ◌<ℤ◌, unsigned_abs, All, IfSome, length, suc};
ghost use Rattle.std.specs.Int.{◌∣◌};
ghost use Rattle.qm_tableau.specs.Wholes.{IsSmall, IsSmallRow, at_place};
ghost use Rattle.qm_tableau.specs.UpdateSteps.{HasParts, IsStep, IsUpdated, number_at};

use crate::sizes::{difference, part, product, shared};
use qm_frac::gcd;

/// What a pivot does to a row of whole numbers: the place of the entering column, what the row is multiplied
/// with, and how often the leaving row is then taken away.
#[derive(Clone, Copy, Debug)]
pub struct Step {
    pub place: usize,
    pub by: i64,
    pub factor: i64,
}

/// The step of a row: its number in the entering column and the leaving row's, without their common divisor.
fn step_of(place: usize, row: &[i64], leaving: &[i64]) -> Option<Step>
    requires inside { place < length row.now }
    requires same { length leaving.now ≡ length row.now }
    requires row { All IsSmall row.now }
    requires leaving { All IsSmall leaving.now }
    requires pivot { pos 0 <ℤ at_place leaving.now place }
    ensures { IfSome result (IsStep place row.now leaving.now) }
{
    let entry = i128::from(row[place]);
    let pivot = i128::from(leaving[place]);
    let common = gcd(entry, pivot);
    let by = part(pivot, common)?;
    let factor = part(entry, common)?;
    Some(Step { place, by, factor })
}

/// What the place k gets, before a common divisor is taken out.
fn number_at(step: Step, row: &[i64], leaving: &[i64], k: usize) -> i128
    requires by { IsSmall step.by }
    requires factor { IsSmall step.factor }
    requires row { All IsSmall row.now }
    requires leaving { All IsSmall leaving.now }
    requires k { k < length row.now }
    requires same { length leaving.now ≡ length row.now }
    ensures value { result ≡ number_at step.place step.by step.factor row.now leaving.now k }
    ensures size { unsigned_abs result ≤ 2 ^ 125 }
{
    if k == 0 {
        product(row[0], step.by)
    } else if k == step.place {
        product(step.factor, leaving[0])
    } else {
        difference(product(row[k], step.by), product(step.factor, leaving[k]))
    }
}

/// A number that divides what all places get.
fn divisor(step: Step, row: &[i64], leaving: &[i64]) -> u128
    requires by { pos 0 <ℤ step.by }
    requires by_small { IsSmall step.by }
    requires factor { IsSmall step.factor }
    requires row { All IsSmall row.now }
    requires leaving { All IsSmall leaving.now }
    requires some { pos 0 <ℤ at_place row.now 0 }
    requires filled { 0 < length row.now }
    requires same { length leaving.now ≡ length row.now }
    ensures some { 0 < result }
    ensures divides { (k : ℕ) → k < length row.now → result ∣ unsigned_abs (number_at step.place step.by step.factor row.now leaving.now k) }
{
    let mut common = number_at(step, row, leaving, 0).unsigned_abs();
    for k in 1..row.len() {
        if common == 1 {
            return 1;
        }
        common = shared(common, number_at(step, row, leaving, k));
    }
    common
}

/// Writes what each place gets without the divisor, where all are small.
fn write(out: &mut [i64], step: Step, row: &[i64], leaving: &[i64], divisor: u128) -> bool
    requires by { IsSmall step.by }
    requires factor { IsSmall step.factor }
    requires row { All IsSmall row.now }
    requires leaving { All IsSmall leaving.now }
    requires same { length leaving.now ≡ length row.now }
    requires room { length out.old ≡ length row.now }
    requires some { 0 < divisor }
    requires divides { (k : ℕ) → k < length row.now → divisor ∣ unsigned_abs (number_at step.place step.by step.factor row.now leaving.now k) }
    ensures parts { result ≡ true → HasParts divisor (number_at step.place step.by step.factor row.now leaving.now) (length row.now) out.new }
    ensures count { length out.new ≡ length out.old }
{
    for k in 0..row.len() {
        match part(number_at(step, row, leaving, k), divisor) {
            Some(number) => out[k] = number,
            None => return false,
        }
    }
    true
}

/// Writes what a pivot in this column makes of the row, where all its numbers are small once no number divides
/// them all. A row that has 0 there stays.
pub fn update(out: &mut [i64], col: usize, row: &[i64], leaving: &[i64]) -> bool
    requires col { suc col < length row.now }
    requires same { length leaving.now ≡ length row.now }
    requires room { length out.old ≡ length row.now }
    requires row { IsSmallRow row.now }
    requires leaving { IsSmallRow leaving.now }
    requires pivot { pos 0 <ℤ at_place leaving.now (suc col) }
    ensures updated { result ≡ true → IsUpdated col leaving.now row.now out.new }
    ensures count { length out.new ≡ length out.old }
{
    let place = col + 1;
    if row[place] == 0 {
        out.copy_from_slice(row);
        return true;
    }
    match step_of(place, row, leaving) {
        Some(step) => {
            let divisor = divisor(step, row, leaving);
            write(out, step, row, leaving, divisor)
        }
        None => false,
    }
}
