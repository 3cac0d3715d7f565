ghost use Rattle.std.specs.Prelude.{◌≡◌, ◌<◌, ◌≤◌, ◌^◌, ◌++◌, [], All, ℕ, OnOk, length, map, neg_ℤ, true, false, unsigned_abs};
ghost use Rattle.std.specs.List.{flat_map};
ghost use Rattle.qm_model.specs.Linear.{IsOrdered, coefficient};
ghost use Rattle.qm_math.specs.Fraction.{whole};
ghost use Rattle.qm_tableau.specs.Quantities.{bound_quantities, high_quantity, low_quantity, quantities, slack_quantity, turned, whole_value};
ghost use Rattle.qm_tableau.specs.FirstTable.{HasRoom, first_row, numbers_from};

use crate::entries::Entries;
use crate::sparse::{next_coefficient, turned};
use qm_game::form_at;
use qm_io::Memory;
use qm_model::{Problem, Range, Row, Term};

/// The coefficient, negated for each of the two that is so.
fn number(high: bool, less: bool, coefficient: i128) -> i128
    requires { unsigned_abs coefficient < 2 ^ 127 }
    ensures value { result ≡ turned high (turned less coefficient) }
    ensures size { unsigned_abs result < 2 ^ 127 }
{
    turned(high, turned(less, coefficient))
}

/// Puts the numbers of a row at the end.
fn push_numbers(
    entries: &mut Entries,
    less: bool,
    terms: &[Term],
    highs: &[bool],
) -> Result<(), Memory>
    requires ordered { IsOrdered terms.now }
    requires narrow { (var : ℕ) → unsigned_abs (coefficient terms.now var) < 2 ^ 127 }
    requires few { length highs.now < 2 ^ 29 }
    ensures { OnOk result (entries.new ≡ entries.old ++ numbers_from (λ var. turned less (coefficient terms.now var)) 0 highs.now) }
{
    let mut rest = terms;
    for (var, high) in highs.iter().enumerate() {
        let (coefficient, later) = next_coefficient(rest, var as u32);
        entries.push(number(*high, less, coefficient))?;
        rest = later;
    }
    Ok(())
}

/// What the quantity comes to at these values.
fn value_at(constant: i128, less: bool, terms: &[Term], values: &[i64]) -> i128
    requires { HasRoom values.now constant terms.now }
    ensures value { result ≡ whole_value (record { constant = constant; less = less; terms = terms.now }) values.now }
    ensures size { unsigned_abs result < 2 ^ 127 }
{
    let form = form_at(terms, values);
    if less {
        constant - form
    } else {
        constant + form
    }
}

/// Puts the row of a quantity at the end.
pub fn push_row(
    entries: &mut Entries,
    constant: i128,
    less: bool,
    terms: &[Term],
    highs: &[bool],
    values: &[i64],
) -> Result<(), Memory>
    requires room { HasRoom values.now constant terms.now }
    requires few { length highs.now < 2 ^ 29 }
    ensures { OnOk result (entries.new ≡ entries.old ++ first_row highs.now values.now (record { constant = constant; less = less; terms = terms.now })) }
{
    entries.push(value_at(constant, less, terms, values))?;
    push_numbers(entries, less, terms, highs)
}

/// The ends of a range and a value have 64 bits.
fn are_near(range: Range, value: i64)
    ensures high { unsigned_abs range.high ≤ 2 ^ 63 }
    ensures low { unsigned_abs range.low ≤ 2 ^ 63 }
    ensures value { unsigned_abs value ≤ 2 ^ 63 }
{
    let _ends = (range.low, range.high, value);
}

fn high_of(range: Range) -> i128
    ensures { result ≡ range.high }
{
    i128::from(range.high)
}

fn minus_low_of(range: Range) -> i128
    ensures { result ≡ neg_ℤ range.low }
{
    -i128::from(range.low)
}

/// Puts the two rows of the distances from the ends of a variable's range at the end.
#[tactic(auto, using(crate::proofs::Pushed::room_of_end))]
fn push_distances(
    entries: &mut Entries,
    var: u32,
    range: Range,
    highs: &[bool],
    values: &[i64],
) -> Result<(), Memory>
    requires few { length highs.now < 2 ^ 29 }
    requires var { var < length values.now }
    ensures { OnOk result (entries.new ≡ (entries.old ++ first_row highs.now values.now (high_quantity var range)) ++ first_row highs.now values.now (low_quantity var range)) }
{
    are_near(range, values[var as usize]);
    let terms = [Term { var, coef: 1 }];
    push_row(entries, high_of(range), true, &terms, highs, values)?;
    push_row(entries, minus_low_of(range), false, &terms, highs, values)
}

/// Puts the rows of the distances from the ends of each range at the end.
#[tactic(auto, using(crate::proofs::Pushed::bounds_done))]
pub fn push_bounds(
    entries: &mut Entries,
    bx: &[Range],
    highs: &[bool],
    values: &[i64],
) -> Result<(), Memory>
    requires few { length highs.now < 2 ^ 29 }
    requires values { length values.now ≡ length bx.now }
    requires few_values { length values.now < 2 ^ 29 }
    ensures { OnOk result (entries.new ≡ entries.old ++ flat_map (first_row highs.now values.now) (bound_quantities 0 bx.now)) }
{
    for (var, range) in bx.iter().enumerate() {
        push_distances(entries, var as u32, *range, highs, values)?;
    }
    Ok(())
}

/// Puts the rows of the slacks at the end.
#[tactic(auto, using(crate::proofs::Pushed::slack_done))]
pub fn push_slacks(
    entries: &mut Entries,
    rows: &[Row],
    highs: &[bool],
    values: &[i64],
) -> Result<(), Memory>
    requires few { length highs.now < 2 ^ 29 }
    requires room { All (λ row. HasRoom values.now row.right row.terms) rows.now }
    ensures { OnOk result (entries.new ≡ entries.old ++ flat_map (first_row highs.now values.now) (map slack_quantity rows.now)) }
{
    for row in rows {
        push_row(
            entries,
            row.right,
            true,
            row.terms.as_slice(),
            highs,
            values,
        )?;
    }
    Ok(())
}

/// Puts the rows of all quantities, one after the other, where nothing is.
#[tactic(auto, using(crate::proofs::Pushed::all_rows))]
pub fn push_entries(
    entries: &mut Entries,
    problem: &Problem,
    cuts: &[Row],
    bx: &[Range],
    highs: &[bool],
    values: &[i64],
) -> Result<(), Memory>
    requires empty { entries.old ≡ [] }
    requires few { length highs.now < 2 ^ 29 }
    requires few_values { length values.now < 2 ^ 29 }
    requires values { length values.now ≡ length bx.now }
    requires objective { HasRoom values.now problem.now.constant problem.now.terms }
    requires rows { All (λ row. HasRoom values.now row.right row.terms) problem.now.rows }
    requires urows { All (λ row. HasRoom values.now row.right row.terms) problem.now.urows }
    requires cuts { All (λ row. HasRoom values.now row.right row.terms) cuts.now }
    ensures { OnOk result (entries.new ≡ flat_map (first_row highs.now values.now) (quantities problem.now cuts.now bx.now)) }
{
    push_row(
        entries,
        problem.constant,
        false,
        problem.terms.as_slice(),
        highs,
        values,
    )?;
    push_bounds(entries, bx, highs, values)?;
    push_slacks(entries, problem.rows.as_slice(), highs, values)?;
    push_slacks(entries, problem.urows.as_slice(), highs, values)?;
    push_slacks(entries, cuts, highs, values)
}
