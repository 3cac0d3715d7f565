use qm_game::{Bx, Game};
use qm_io::{List, Memory};
use qm_model::{Range, Row, Term, Terms};
use std::alloc::Global;

/// What is left to the variables from a depth on, where those before are set: of each row's right side, or 0 where the row
/// has no variable from there on; and what those before add to the objective. It only tells where a policy is worth a test,
/// so numbers that are too great wrap.
#[derive(Debug, Drop)]
pub struct Left {
    rows: List<i128>,
    uncertainty: List<i128>,
    objective: i128,
}

impl Left {
    /// What the box leaves from the depth on.
    pub fn of(alloc: Global, game: &Game, bx: &Bx, depth: usize) -> Result<Left, Memory> {
        let problem = game.problem();
        let ranges = bx.as_slice();
        Ok(Left {
            rows: rights(alloc, problem.rows.as_slice(), ranges, depth)?,
            uncertainty: rights(alloc, problem.urows.as_slice(), ranges, depth)?,
            objective: added(&problem.terms, ranges, depth),
        })
    }

    /// Whether the existential player has as much room as there, and the universal player has no more.
    pub fn is_roomier(&self, other: &Left) -> bool {
        are_at_most(other.rows.as_slice(), self.rows.as_slice())
            && are_at_most(self.uncertainty.as_slice(), other.uncertainty.as_slice())
    }

    /// How much more the variables before the depth add to the objective than there, before it is scaled.
    pub fn more_than(&self, other: &Left) -> i128 {
        self.objective.wrapping_sub(other.objective)
    }
}

/// Whether each number is at most the other list's.
fn are_at_most(less: &[i128], more: &[i128]) -> bool {
    for (a, b) in less.iter().zip(more) {
        if *a > *b {
            return false;
        }
    }
    true
}

/// What is left of the rows' right sides.
fn rights(
    alloc: Global,
    rows: &[Row],
    ranges: &[Range],
    depth: usize,
) -> Result<List<i128>, Memory> {
    let mut left = List::new(alloc);
    for row in rows {
        left.push(right(row, ranges, depth))?;
    }
    Ok(left)
}

/// What is left of a row's right side, or 0 where the row has no variable from the depth on.
fn right(row: &Row, ranges: &[Range], depth: usize) -> i128 {
    let mut left = row.right;
    for term in row.terms.as_slice() {
        if depth <= term.var as usize {
            return left;
        }
        left = left.wrapping_sub(part(*term, ranges));
    }
    0
}

/// What the variables before the depth add to the terms.
fn added(terms: &Terms, ranges: &[Range], depth: usize) -> i128 {
    let mut sum: i128 = 0;
    for term in terms.as_slice() {
        if depth <= term.var as usize {
            return sum;
        }
        sum = sum.wrapping_add(part(*term, ranges));
    }
    sum
}

/// What a variable that is set adds.
fn part(term: Term, ranges: &[Range]) -> i128 {
    match ranges.get(term.var as usize) {
        Some(range) => term.coef.wrapping_mul(range.low as i128),
        None => 0,
    }
}
