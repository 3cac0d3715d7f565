ghost use Rattle.std.specs.Prelude.{◌≡◌, ◌≤◌, ◌<◌, ◌^◌, ℕ, suc, unsigned_abs};
ghost use Rattle.qm_model.specs.Linear.{IsOrderedFrom, coefficient};
ghost use Rattle.qm_tableau.specs.Quantities.{turned};

use qm_model::Term;

fn number_of(term: Term) -> i128
    ensures { result ≡ term.coef }
{
    term.coef
}

/// The coefficient of a variable and the terms of the later ones, where no term is of an earlier one.
#[tactic(auto, using(crate::proofs::Coefficients::coefficient_here, crate::proofs::Coefficients::coefficient_absent))]
pub fn next_coefficient(terms: &[Term], var: u32) -> (i128, &[Term])
    requires { IsOrderedFrom var terms.now }
    ensures value { result.0 ≡ coefficient terms.now var }
    ensures ordered { IsOrderedFrom (suc var) result.1.now }
    ensures later { (v : ℕ) → var < v → coefficient result.1.now v ≡ coefficient terms.now v }
{
    match terms.split_first() {
        Some((term, later)) => {
            if term.var == var {
                (number_of(*term), later)
            } else {
                (0, terms)
            }
        }
        None => (0, terms),
    }
}

/// The number, or its negative.
pub fn turned(turn: bool, n: i128) -> i128
    requires { unsigned_abs n < 2 ^ 127 }
    ensures value { result ≡ turned turn n }
    ensures size { unsigned_abs result < 2 ^ 127 }
{
    if turn { -n } else { n }
}
