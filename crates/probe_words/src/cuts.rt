ghost use Rattle.std.specs.Prelude.{◌≡◌, ◌+◌, ◌*◌, ◌<◌, ◌≤◌, ◌^◌, All, IfOk, IfSome, IsTrue, length, unsigned_abs};
ghost use Rattle.qm_model.specs.Linear.{HasVarsBelow, IsOrdered};
ghost use Rattle.qm_model.specs.Sizes.{reach_in_vars, row_size};
ghost use Rattle.qm_model.specs.Sound.{IsRowOver};

use crate::no_answer::NoAnswer;
use qm_game::{Game, Row, Term, Terms, Var};
use qm_io::List;
use smallvec::SmallVec;
use std::alloc::Global;

/// The cuts that are written as `2x1+-1x3<=4`, by the numbers of their variables; none where there are no words.
pub fn cuts_of(alloc: Global, game: &Game, words: &str) -> Result<List<Row>, NoAnswer>
    ensures over { IfOk result (All (IsRowOver game.now.vars)) }
    ensures few { IfOk result (λ cuts. length cuts < 2 ^ 29) }
{
    let vars = game.problem().vars.as_slice();
    let mut cuts = List::new(alloc);
    for word in words.split(' ') {
        if cuts.len() >= 100 {
            return Err(NoAnswer::Cut);
        }
        if !word.is_empty() {
            cuts.push(cut_of(alloc, vars, word)?)?;
        }
    }
    Ok(cuts)
}

fn cut_of(alloc: Global, vars: &[Var], word: &str) -> Result<Row, NoAnswer>
    ensures { IfOk result (IsRowOver vars.now) }
{
    let (terms, right) = word.split_once("<=").ok_or(NoAnswer::Spelling)?;
    let right = right.parse::<i128>().ok().ok_or(NoAnswer::Spelling)?;
    let row = Row {
        terms: terms_of(alloc, vars, terms)?,
        right,
    };
    if fits(vars, &row) {
        Ok(row)
    } else {
        Err(NoAnswer::Cut)
    }
}

fn terms_of(alloc: Global, vars: &[Var], words: &str) -> Result<Terms, NoAnswer>
    ensures { IfOk result (HasVarsBelow (length vars.now)) }
{
    let mut terms = SmallVec::new(alloc);
    for word in words.split('+') {
        match read_term(word) {
            Some(term) => terms.push(term)?,
            None => return Err(NoAnswer::Spelling),
        }
    }
    if are_ordered(terms.as_slice()) && are_below(terms.as_slice(), vars.len()) {
        Ok(Terms::new(terms))
    } else {
        Err(NoAnswer::Cut)
    }
}

// `CxN`: the coefficient of the variable of this number, counted from 1.
fn read_term(word: &str) -> Option<Term> {
    let (coef, number) = word.split_once('x')?;
    Some(Term {
        var: number.parse::<u32>().ok()?.checked_sub(1)?,
        coef: coef.parse::<i128>().ok()?,
    })
}

fn are_below(terms: &[Term], count: usize) -> bool
    ensures { IsTrue result → HasVarsBelow count terms.now }
{
    terms.iter().all(|term| (term.var as usize) < count)
}

fn are_ordered(terms: &[Term]) -> bool
    ensures { IsTrue result → IsOrdered terms.now }
{
    let mut least: u64 = 0;
    for term in terms {
        if u64::from(term.var) < least || term.coef == 0 {
            return false;
        }
        least = u64::from(term.var) + 1;
    }
    true
}

// How far the variable of a number reaches; 1 where there is none.
fn reach(vars: &[Var], var: u32) -> u128
    ensures { result ≡ reach_in_vars vars.now var }
{
    match vars.get(var as usize) {
        Some(x) => u128::from(x.low.unsigned_abs().max(x.high.unsigned_abs()).max(1)),
        None => 1,
    }
}

// Whether the size of a row is at most 2^126.
fn fits(vars: &[Var], row: &Row) -> bool
    ensures { IsTrue result → row_size (reach_in_vars vars.now) row.now ≤ 2 ^ 126 }
{
    let mut size = row.right.unsigned_abs();
    for term in row.terms.as_slice() {
        match size_with(size, term.coef, reach(vars, term.var)) {
            Some(more) => size = more,
            None => return false,
        }
    }
    size <= 1 << 126
}

// A size with that of one term more.
fn size_with(size: u128, coef: i128, reach: u128) -> Option<u128>
    ensures { IfSome result (λ n. n ≡ size + unsigned_abs coef * reach) }
{
    size.checked_add(coef.unsigned_abs().checked_mul(reach)?)
}
