ghost use Rattle.std.specs.Prelude.{◌≡◌, ◌++◌, ◌<◌, ◌^◌, OnOk, length};
ghost use Rattle.qm_trees.specs.CutEntries.{rows_on};
ghost use Rattle.qm_trees.specs.CutRules.{may_stand};
ghost use Rattle.qm_cuts.specs.Answers.{IsSight};
ghost use Rattle.qm_cuts.specs.Steps.{AreUsable, broken_at, nothing_seen, or_later, see_each, seen_with, term_of};

use crate::fault::CutFault;
use crate::nexts::next_variable;
use crate::seen::Seen;
use crate::sums::add_coefficients;
use qm_frac::Frac;
use qm_io::{List, Memory};
use qm_model::{Problem, Row, Term, Var};
use qm_trees::CutEntry;
use std::alloc::Global;

/// Whether the coefficient is whole on a whole variable, and 0 on a continuous one.
pub(crate) fn may_stand(x: &Var, coefficient: Frac) -> bool
    ensures { result ≡ may_stand x.now coefficient }
{
    if x.whole {
        coefficient.den() == 1
    } else {
        coefficient.num() == 0
    }
}

/// The first variable whose coefficient may not stand, once this one is seen.
fn broken_with(broken: Option<u32>, var: u32, x: &Var, coefficient: Frac) -> Option<u32>
    ensures { result ≡ or_later broken (broken_at var x.now coefficient) }
{
    match broken {
        Some(first) => Some(first),
        None => {
            if may_stand(x, coefficient) {
                None
            } else {
                Some(var)
            }
        }
    }
}

/// Puts the variable's term last, where its coefficient isn't 0.
fn push_term(terms: &mut List<Term>, var: u32, coefficient: Frac) -> Result<(), Memory>
    ensures { OnOk result (terms.new ≡ terms.old ++ term_of var coefficient) }
{
    let number = coefficient.num();
    if number != 0 {
        terms.push(Term::new(var, number))?;
    }
    Ok(())
}

/// One variable is seen, with its coefficient.
fn see(seen: &mut Seen, var: u32, x: &Var, coefficient: Frac) -> Result<(), Memory>
    ensures { OnOk result (seen.new ≡ seen_with var x.now coefficient seen.old) }
{
    seen.broken = broken_with(seen.broken, var, x, coefficient);
    push_term(&mut seen.terms, var, coefficient)
}

/// What is seen of all variables. Those that no row has are passed over.
pub(crate) fn see_each(
    alloc: Global,
    problem: &Problem,
    earlier: &[Row],
    entries: &[CutEntry],
) -> Result<Seen, CutFault>
    requires usable { AreUsable problem.now earlier.now entries.now }
    requires few { length problem.now.vars < 2 ^ 29 }
    ensures { IsSight (see_each (rows_on problem.now earlier.now entries.now) 0 problem.now.vars nothing_seen) result }
{
    let vars = problem.vars.as_slice();
    let mut seen = Seen {
        broken: None,
        terms: List::new(alloc),
    };
    let mut var = next_variable(problem, earlier, entries, 0);
    while (var as usize) < vars.len() {
        let coefficient = add_coefficients(problem, earlier, entries, var)?;
        see(&mut seen, var, &vars[var as usize], coefficient)?;
        var = next_variable(problem, earlier, entries, var + 1);
    }
    Ok(seen)
}
