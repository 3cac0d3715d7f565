ghost use Rattle.std.specs.Prelude.{◌≡◌, ◌≤◌, ◌&&◌, ◌++◌, ◌∷◌, [], IfOk, OnOk, drop, length, map, if◌then◌else◌};
ghost use Rattle.qm_model.specs.Boxes.{IsBox};
ghost use Rattle.qm_model.specs.Legal.{universal_part};
ghost use Rattle.qm_model.specs.Plays.{is_universal};
ghost use Rattle.qm_trees.specs.Closing.{is_empty_range};
ghost use Rattle.qm_trees.specs.EmptyJudgement.{some_universal_empty};
ghost use Rattle.qm_legal.specs.Queries.{low_of};

use qm_game::{Bx, Place, Range, Var};
use qm_io::{List, Memory};
use qm_model::is_for_all;
use std::alloc::Global;

/// Puts the range's low end last, where the universal player sets the variable.
fn push_low(values: &mut List<i64>, var: &Var, range: Range) -> Result<(), Memory>
    ensures { OnOk result (values.new ≡ (if is_universal var.now then values.old ++ range.low ∷ [] else values.old)) }
{
    if is_for_all(var) {
        values.push(range.low)
    } else {
        Ok(())
    }
}

/// The low ends of the universal variables' ranges.
#[tactic(auto, using(crate::proofs::Lows::lows_more))]
pub fn universal_lows(alloc: Global, vars: &[Var], bx: &[Range]) -> Result<List<i64>, Memory>
    requires { length vars.now ≤ length bx.now }
    ensures { IfOk result (λ values. values ≡ universal_part vars.now (map low_of bx.now)) }
{
    let mut values = List::new(alloc);
    for (at, var) in vars.iter().enumerate() {
        push_low(&mut values, var, bx[at])?;
    }
    Ok(values)
}

/// Whether the universal player sets the variable, and the range has no value.
fn is_empty_for(var: &Var, range: Range) -> bool
    ensures { result ≡ (is_universal var.now && is_empty_range range) }
{
    is_for_all(var) && range.high < range.low
}

/// Whether the range of some universal variable is empty.
pub fn some_universal_empty(vars: &[Var], bx: &[Range]) -> bool
    requires { length vars.now ≤ length bx.now }
    ensures { result ≡ some_universal_empty vars.now bx.now }
{
    for (at, var) in vars.iter().enumerate() {
        if is_empty_for(var, bx[at]) {
            return true;
        }
    }
    false
}

/// The ranges from the depth on.
fn ranges_from(bx: &[Range], depth: usize) -> &[Range]
    requires { depth ≤ length bx.now }
    ensures { result.now ≡ drop depth bx.now }
{
    &bx[depth..]
}

/// The values of the universal variables from here on, which are set in the box.
pub fn completion(alloc: Global, here: Place<'_>, bx: &Bx) -> Result<List<i64>, Memory>
    requires depth { here.depth ≤ here.game.now.wholes }
    requires bx { IsBox here.game.now.vars bx.now }
    ensures { IfOk result (λ values. values ≡ universal_part here.entry.rest.now (map low_of (drop here.entry.depth bx.now))) }
{
    // that the whole variables are some of all
    let _problem = here.game.problem();
    universal_lows(alloc, here.rest, ranges_from(bx.as_slice(), here.depth))
}
