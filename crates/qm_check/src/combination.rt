ghost use Rattle.std.specs.Prelude.{◌≡◌, ◌≤◌, false, length, true};
ghost use Rattle.qm_trees.specs.Entries.{weighted_rows};
ghost use Rattle.qm_math.specs.Fraction.{whole};
ghost use Rattle.qm_frac.specs.Checked.{and_then};
ghost use Rattle.qm_trees.specs.Evaluation.{add_least, least_end_by, add_right_sides, add_variables, value_of, zero};
ghost use Rattle.qm_check.specs.Narrow.{AreNarrow, HasNarrow, NameNarrow};
ghost use Rattle.qm_check.specs.Sums.{add_least_ends, sum_of_var};

use crate::numbers::is_below;
use crate::rows::row_of;
use crate::sums::{combine, sum_of};
use qm_frac::{Frac, Leaves, over_one};
use qm_model::{Problem, Range, Row};
use qm_trees::{Combo, ComboValue, Entry};

/// Each multiplier times its row's right side, added up.
fn add_right_sides(problem: &Problem, cuts: &[Row], entries: &[Entry]) -> Result<Frac, Leaves>
    requires { NameNarrow (length problem.now.vars) problem.now cuts.now entries.now }
    ensures { result ≡ add_right_sides (weighted_rows problem.now cuts.now entries.now) zero }
{
    let mut sum = Frac::whole(0);
    for entry in entries {
        let row = row_of(problem, cuts, entry.row);
        let product = entry.by.mul(over_one(row.right))?;
        sum = sum.add(product)?;
    }
    Ok(sum)
}

/// The end of the range that makes a multiple of the coefficient least.
fn least_end(coefficient: Frac, range: Range) -> Frac
    ensures { result ≡ whole (least_end_by coefficient.num range) }
{
    if coefficient.num() < 0 {
        Frac::whole(range.high)
    } else {
        Frac::whole(range.low)
    }
}

/// To the sum so far, the least multiple of the coefficient over the range, where the coefficient isn't 0.
fn add_least(coefficient: Frac, range: Range, sum: Frac) -> Result<Frac, Leaves>
    ensures { result ≡ add_least coefficient range sum }
{
    if coefficient.num() == 0 {
        return Ok(sum);
    }
    let product = coefficient.mul(least_end(coefficient, range))?;
    sum.add(product)
}

/// The same, where no operation on the way to the coefficient leaves.
fn add_least_of(coefficient: Result<Frac, Leaves>, range: Range, sum: Frac) -> Result<Frac, Leaves>
    ensures { result ≡ and_then coefficient (λ c. add_least c range sum) }
{
    add_least(coefficient?, range, sum)
}

/// The least multiples of the coefficients, added up.
fn add_least_ends(sums: &[Result<Frac, Leaves>], bx: &[Range]) -> Result<Frac, Leaves>
    requires { length bx.now ≤ length sums.now }
    ensures { result ≡ add_least_ends (sum_of_var sums.now) 0 bx.now zero }
{
    let mut sum = Frac::whole(0);
    for (var, range) in bx.iter().enumerate() {
        sum = add_least_of(sum_of(sums, var), *range, sum)?;
    }
    Ok(sum)
}

/// The least value of the combination's form over the box.
fn least_form(
    problem: &Problem,
    cuts: &[Row],
    combo: &Combo,
    bx: &[Range],
    sums: &mut [Result<Frac, Leaves>],
) -> Result<Frac, Leaves>
    requires narrow { HasNarrow problem.now cuts.now combo.now.entries }
    requires bx { length bx.now ≡ length problem.now.vars }
    requires sums { length sums.old ≡ length problem.now.vars }
    ensures { result ≡ add_variables problem.now combo.now.objective (weighted_rows problem.now cuts.now combo.now.entries) 0 bx.now zero }
{
    combine(problem, cuts, combo, sums);
    add_least_ends(sums, bx)
}

/// Whether the rows alone contradict the box.
#[tactic(auto, unfolding(qm_trees::specs::Evaluation::value_of))]
fn rows_value(
    problem: &Problem,
    cuts: &[Row],
    combo: &Combo,
    bx: &[Range],
    sums: &mut [Result<Frac, Leaves>],
) -> Result<ComboValue, Leaves>
    requires narrow { HasNarrow problem.now cuts.now combo.now.entries }
    requires bx { length bx.now ≡ length problem.now.vars }
    requires sums { length sums.old ≡ length problem.now.vars }
    requires plain { combo.now.objective ≡ false }
    ensures { result ≡ value_of problem.now combo.now.objective (weighted_rows problem.now cuts.now combo.now.entries) bx.now }
{
    let right = add_right_sides(problem, cuts, combo.entries())?;
    let least = least_form(problem, cuts, combo, bx, sums)?;
    if is_below(right, least) {
        Ok(ComboValue::Void)
    } else {
        Ok(ComboValue::Nothing)
    }
}

/// The bound of the objective by the rows.
#[tactic(auto, unfolding(qm_trees::specs::Evaluation::value_of))]
fn bound_value(
    problem: &Problem,
    cuts: &[Row],
    combo: &Combo,
    bx: &[Range],
    sums: &mut [Result<Frac, Leaves>],
) -> Result<ComboValue, Leaves>
    requires narrow { HasNarrow problem.now cuts.now combo.now.entries }
    requires bx { length bx.now ≡ length problem.now.vars }
    requires sums { length sums.old ≡ length problem.now.vars }
    requires objective { combo.now.objective ≡ true }
    ensures { result ≡ value_of problem.now combo.now.objective (weighted_rows problem.now cuts.now combo.now.entries) bx.now }
{
    let rows = add_right_sides(problem, cuts, combo.entries())?;
    let right = rows.add(over_one(problem.constant))?;
    let least = least_form(problem, cuts, combo, bx, sums)?;
    let gap = right.sub(least)?;
    let bound = gap.div(over_one(problem.scale))?;
    Ok(ComboValue::Bound(bound))
}

/// What the combination comes to over the box. `Leaves` names the first operation that leaves the range: first those on
/// right sides, then for each variable in game order those on its coefficient and its least multiple. The sums, one
/// for each variable, are written over.
pub(crate) fn value(
    problem: &Problem,
    cuts: &[Row],
    combo: &Combo,
    bx: &[Range],
    sums: &mut [Result<Frac, Leaves>],
) -> Result<ComboValue, Leaves>
    requires narrow { HasNarrow problem.now cuts.now combo.now.entries }
    requires bx { length bx.now ≡ length problem.now.vars }
    requires sums { length sums.old ≡ length problem.now.vars }
    ensures { result ≡ value_of problem.now combo.now.objective (weighted_rows problem.now cuts.now combo.now.entries) bx.now }
{
    if combo.objective() {
        bound_value(problem, cuts, combo, bx, sums)
    } else {
        rows_value(problem, cuts, combo, bx, sums)
    }
}
