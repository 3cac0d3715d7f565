ghost use Rattle.std.specs.Prelude.{◌≡◌, ◌≤◌, ◌++◌, length, All, IfOk, OnOk};
ghost use Rattle.qm_gen.specs.Draws.{draw, state_behind};
ghost use Rattle.qm_gen.specs.Generated.{drawn_term, objective_terms, right_of, row_terms, sum_terms};

use crate::draws::Draws;
use crate::term::{Term, is_universal};
use qm_io::{List, Memory};
use std::alloc::Global;

/// The terms of the objective.
pub(crate) fn objective_terms(
    alloc: Global,
    draws: &mut Draws,
    size: u32,
) -> Result<List<Term>, Memory>
    requires { size ≤ 100 }
    ensures terms { IfOk result (λ terms. terms ≡ objective_terms (draw draws.old.state) size) }
    ensures state { OnOk result (draws.new.state ≡ state_behind draws.old.state size) }
{
    let mut terms = List::new(alloc);
    for place in 0..size {
        terms.push(Term {
            factor: 1 + draws.draw() % 9,
            variable: place + 1,
        })?;
    }
    Ok(terms)
}

/// The terms of a row.
pub(crate) fn row_terms(alloc: Global, draws: &mut Draws, size: u32) -> Result<List<Term>, Memory>
    requires { size ≤ 100 }
    ensures terms { IfOk result (λ terms. terms ≡ row_terms (draw draws.old.state) size) }
    ensures state { OnOk result (draws.new.state ≡ state_behind draws.old.state size) }
    ensures few { IfOk result (λ terms. length terms ≤ size) }
    ensures small { IfOk result (All (λ term. term.factor ≤ 5)) }
{
    let mut terms = List::new(alloc);
    for place in 0..size {
        let drawn = draws.draw();
        push_drawn(drawn, place + 1, &mut terms)?;
    }
    Ok(terms)
}

// Puts in what the draw gives the variable.
fn push_drawn(drawn: u32, variable: u32, terms: &mut List<Term>) -> Result<(), Memory>
    ensures { OnOk result (terms.new ≡ terms.old ++ drawn_term drawn variable) }
{
    if drawn % 2 == 0 {
        return Ok(());
    }
    terms.push(Term {
        factor: 1 + drawn / 2 % 5,
        variable,
    })
}

/// The sum of these variables.
pub(crate) fn sum_terms(alloc: Global, variables: &[u32]) -> Result<List<Term>, Memory>
    ensures { IfOk result (λ terms. terms ≡ sum_terms variables.now) }
{
    let mut terms = List::new(alloc);
    for variable in variables {
        terms.push(Term {
            factor: 1,
            variable: *variable,
        })?;
    }
    Ok(terms)
}

/// The right side of a row of these terms: the universal factors, and half of the others.
pub(crate) fn right_side(terms: &[Term]) -> u32
    requires few { length terms.now ≤ 100 }
    requires small { All (λ term. term.factor ≤ 5) terms.now }
    ensures { result ≡ right_of terms.now }
{
    let mut universal = 0;
    let mut existential = 0;
    for term in terms {
        if is_universal(term.variable) {
            universal += term.factor;
        } else {
            existential += term.factor;
        }
    }
    universal + existential / 2
}
