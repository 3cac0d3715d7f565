ghost use Rattle.std.specs.Prelude.{[], ◌≡◌, ◌≢◌, ◌+◌, ◌≤◌, All, IfOk, OnOk, length, pos, unsigned_abs};
ghost use Rattle.qm_legal.specs.Queries.{IsQueryOf};
ghost use Rattle.bench_large.specs.Games.{IsPlainUncertainty};

use crate::games::game;
use qm_game::{Bx, Game, Row, Term, Terms, whole_box};
use qm_io::{List, Memory};
use qm_journal::Journal;
use qm_legal::{LegalFault, Legality, NamedPrefix, legal};
use smallvec::SmallVec;
use std::alloc::{AllocError, Global};

// The sum of so many variables from `first` on, each times the coefficient, is to be at most `right`.
fn budget(alloc: Global, first: u32, count: u32, coef: i128, right: i128) -> Result<Row, Memory>
    requires vars { first + count ≤ 400 }
    requires some { coef ≢ pos 0 }
    requires small { unsigned_abs coef ≤ 8 }
    requires right { unsigned_abs right ≤ 4000 }
    ensures { IfOk result (IsPlainUncertainty 400) }
{
    let mut terms = SmallVec::new(alloc);
    for number in 0..count {
        terms.push(Term {
            var: first + number,
            coef,
        })?;
    }
    Ok(Row {
        terms: Terms::new(terms),
        right,
    })
}

fn push_budget(
    alloc: Global,
    rows: &mut List<Row>,
    first: u32,
    count: u32,
    coef: i128,
    right: i128,
) -> Result<(), Memory>
    requires vars { first + count ≤ 400 }
    requires some { coef ≢ pos 0 }
    requires small { unsigned_abs coef ≤ 8 }
    requires right { unsigned_abs right ≤ 4000 }
    requires rows { All (IsPlainUncertainty 400) rows.old }
    ensures many { OnOk result (length rows.new ≡ length rows.old + 1) }
    ensures rows { OnOk result (All (IsPlainUncertainty 400) rows.new) }
{
    rows.push(budget(alloc, first, count, coef, right)?)
}

// Of 400 binaries at most 100 and at least 20 are 1, and of each hundred at most 40.
fn budgets(alloc: Global) -> Result<List<Row>, Memory>
    ensures few { IfOk result (λ rows. length rows ≤ 1000) }
    ensures rows { IfOk result (All (IsPlainUncertainty 400)) }
{
    let mut rows = List::new(alloc);
    push_budget(alloc, &mut rows, 0, 400, 1, 100)?;
    push_budget(alloc, &mut rows, 0, 400, -1, -20)?;
    push_budget(alloc, &mut rows, 0, 100, 1, 40)?;
    push_budget(alloc, &mut rows, 100, 100, 1, 40)?;
    push_budget(alloc, &mut rows, 200, 100, 1, 40)?;
    push_budget(alloc, &mut rows, 300, 100, 1, 40)?;
    Ok(rows)
}

// How many values complete the empty prefix, and how many entries the question took.
#[derive(Clone, Copy)]
struct Asked {
    values: usize,
    entries: usize,
}

// What it takes to complete the empty prefix of a game of 1,000 variables and 2,000 rows, 400 of them universal under
// budgets, which is asked so many times.
fn asked_in(alloc: Global, times: u32) -> Result<Asked, LegalFault> {
    let game = game(alloc, 2000, 400, budgets(alloc)?)?;
    let bx: Bx = whole_box(alloc, &game)?;
    let mut last = Asked {
        values: 0,
        entries: 0,
    };
    for _ in 0..times {
        last = ask(alloc, &game, &bx)?;
    }
    Ok(last)
}

fn ask(alloc: Global, game: &Game, bx: &Bx) -> Result<Asked, LegalFault>
    requires { IsQueryOf game.now [] bx.now }
{
    let named = NamedPrefix {
        parent: 0,
        value: None,
    };
    let mut journal = Journal::new(alloc, 1000);
    let answer = legal(alloc, game, bx, named, &mut journal);
    let entries = journal.entries().len();
    match answer {
        Ok(Legality::Completion(values)) => Ok(Asked {
            values: values.len(),
            entries,
        }),
        Ok(Legality::Illegal(_)) => Ok(Asked { values: 0, entries }),
        Err(fault) => Err(fault),
    }
}

/// How many values complete the empty prefix of such a game, and how many entries are in the journal of the last question.
pub fn legal_line(alloc: Global, times: u32) -> Result<String, AllocError> {
    match asked_in(alloc, times) {
        Ok(asked) => {
            let values = asked.values;
            let entries = asked.entries;
            format!(in alloc; "{values} {entries}")
        }
        Err(LegalFault::Spent) => String::from_str(alloc, "spent"),
        Err(LegalFault::Memory) => String::from_str(alloc, "out of memory"),
    }
}
