ghost use Rattle.std.specs.Prelude.{◌≡◌, ℕ, ◌<◌, ◌≤◌, ◌^◌, pos, IfSome, IsSome, drop, length, slice_get};
ghost use Rattle.qm_model.specs.Linear.{IsOrdered, coefficient};
ghost use Rattle.qm_trees.specs.CutEntries.{bound_row, row_on};
ghost use Rattle.qm_cuts.specs.Steps.{AreUsable, HaveNo, IsUsable};

use qm_model::{Problem, Row, Term};
use qm_trees::{CutEntry, CutRow};

/// Where the terms of this and later variables begin.
fn place_from(terms: &[Term], var: u32) -> usize
    requires { IsOrdered terms.now }
    ensures within { result ≤ length terms.now }
    ensures before { (n : ℕ) → var ≤ n → coefficient (drop result terms.now) n ≡ coefficient terms.now n }
    ensures behind { IfSome (slice_get terms.now result) (λ t. var ≤ t.var) }
{
    let mut low = 0;
    let mut high = terms.len();
    while low < high {
        let middle = low + (high - low) / 2;
        if terms[middle].var < var {
            low = middle + 1;
        } else {
            high = middle;
        }
    }
    low
}

/// The first variable from `from` on that the terms have, unless `limit` comes before it.
pub(crate) fn next_in(terms: &[Term], from: u32, limit: u32) -> u32
    requires ordered { IsOrdered terms.now }
    requires room { from ≤ limit }
    ensures later { from ≤ result }
    ensures within { result ≤ limit }
    ensures none { (n : ℕ) → from ≤ n → n < result → coefficient terms.now n ≡ pos 0 }
{
    let at = place_from(terms, from);
    if at < terms.len() {
        terms[at].var.min(limit)
    } else {
        limit
    }
}

fn next_at(rows: &[Row], number: u32, from: u32, limit: u32) -> u32
    requires there { IsSome (slice_get rows.now number) }
    requires room { from ≤ limit }
    ensures later { from ≤ result }
    ensures within { result ≤ limit }
    ensures none { (n : ℕ) → from ≤ n → n < result → IfSome (slice_get rows.now number) (λ row. coefficient row.terms n ≡ pos 0) }
{
    next_in(rows[number as usize].terms.as_slice(), from, limit)
}

fn next_of_bound(of: u32, from: u32, limit: u32) -> u32
    requires { from ≤ limit }
    ensures later { from ≤ result }
    ensures within { result ≤ limit }
    ensures none { (n : ℕ) → from ≤ n → n < result → n ≡ of → ⊥ }
{
    if of < from { limit } else { of.min(limit) }
}

/// The first variable from `from` on that the row has which an entry stands on, unless `limit` comes before it.
fn next_on(problem: &Problem, earlier: &[Row], on: CutRow, from: u32, limit: u32) -> u32
    requires usable { IsUsable problem.now earlier.now on }
    requires room { from ≤ limit }
    ensures later { from ≤ result }
    ensures within { result ≤ limit }
    ensures none { (n : ℕ) → from ≤ n → n < result → IfSome (row_on problem.now earlier.now on) (λ row. coefficient row.terms n ≡ pos 0) }
{
    match on {
        CutRow::Row(number) => next_at(problem.rows.as_slice(), number, from, limit),
        CutRow::Uncertain(number) => next_at(problem.urows.as_slice(), number, from, limit),
        CutRow::Cut(number) => next_at(earlier, number, from, limit),
        CutRow::Low(of) => next_of_bound(of, from, limit),
        CutRow::High(of) => next_of_bound(of, from, limit),
    }
}

/// The first variable from `from` on that a row has which an entry stands on; the number of variables where there is none.
pub(crate) fn next_variable(
    problem: &Problem,
    earlier: &[Row],
    entries: &[CutEntry],
    from: u32,
) -> u32
    requires usable { AreUsable problem.now earlier.now entries.now }
    requires few { length problem.now.vars < 2 ^ 29 }
    requires room { from ≤ length problem.now.vars }
    ensures later { from ≤ result }
    ensures within { result ≤ length problem.now.vars }
    ensures none { (n : ℕ) → from ≤ n → n < result → HaveNo problem.now earlier.now entries.now n }
{
    let mut next = problem.vars.len() as u32;
    for entry in entries {
        next = next_on(problem, earlier, entry.on, from, next);
    }
    next
}
