ghost use Rattle.std.specs.Prelude.{◌≡◌, ◌≢◌, ◌+◌, ◌*◌, ◌<◌, ◌≤◌, All, IfOk, IsTrue, length, pos, unsigned_abs};
ghost use Rattle.qm_model.specs.Plays.{is_universal};
ghost use Rattle.bench_large.specs.Games.{AreUniversal, IsPlain, IsPlainRow, IsPlainUncertainty};

use qm_game::{Bx, Game, Player, Problem, Row, Sense, Term, Terms, Var, whole_box};
use qm_io::{List, Memory};
use qm_prop::{Propagated, propagate};
use std::alloc::{AllocError, Global};

// A binary that the universal player sets, or a variable from 0 to 1000 that the existential player sets.
fn variable(alloc: Global, universal: bool) -> Var
    ensures plain { IsPlain result }
    ensures universal { IsTrue universal → IsTrue (is_universal result) }
{
    if universal {
        Var::binary(List::new(alloc), Player::All)
    } else {
        Var::whole_to(List::new(alloc), Player::Exists, 1000)
    }
}

fn variables(alloc: Global, universals: u32) -> Result<List<Var>, Memory>
    ensures many { IfOk result (λ vars. length vars ≡ 1000) }
    ensures plain { IfOk result (All IsPlain) }
    ensures universal { IfOk result (AreUniversal universals) }
{
    let mut vars = List::new(alloc);
    for number in 0..1000u32 {
        vars.push(variable(alloc, number < universals))?;
    }
    Ok(vars)
}

// A coefficient from -8 to 8 other than 0, more often a positive one.
fn coefficient(bits: u64) -> i128
    ensures some { result ≢ pos 0 }
    ensures small { unsigned_abs result ≤ 8 }
{
    let size = i128::from(bits % 8) + 1;
    if bits / 8 % 8 == 0 { -size } else { size }
}

// The term of a row's variable of this number, where the row begins at `first` and goes on by `step`.
fn term(first: u32, step: u32, number: u32, seed: u64) -> Term
    requires first { first < 250 }
    requires step { step ≤ 100 }
    requires number { number < 8 }
    ensures var { result.var ≡ first + number * step }
    ensures some { result.coef ≢ pos 0 }
    ensures small { unsigned_abs result.coef ≤ 8 }
{
    Term {
        var: first + number * step,
        coef: coefficient(seed.rotate_right(6 * number)),
    }
}

// Eight terms.
fn terms(alloc: Global, first: u32, step: u32, seed: u64) -> Result<Terms, Memory>
    requires first { first < 250 }
    requires some { 0 < step }
    requires step { step ≤ 100 }
    ensures { IfOk result (λ terms. IsPlainRow (record { terms = terms; right = pos 0 })) }
{
    Terms::of(
        alloc,
        &[
            term(first, step, 0, seed),
            term(first, step, 1, seed),
            term(first, step, 2, seed),
            term(first, step, 3, seed),
            term(first, step, 4, seed),
            term(first, step, 5, seed),
            term(first, step, 6, seed),
            term(first, step, 7, seed),
        ],
    )
}

// A row of eight terms.
fn row(alloc: Global, seed: u64) -> Result<Row, Memory>
    ensures { IfOk result IsPlainRow }
{
    let first = (seed % 250) as u32;
    let step = (seed / 1024 % 100) as u32 + 1;
    Ok(Row {
        terms: terms(alloc, first, step, seed)?,
        right: i128::from(seed / 65536 % 4000),
    })
}

fn rows(alloc: Global, count: u32) -> Result<List<Row>, Memory>
    ensures many { IfOk result (λ rows. length rows ≡ count) }
    ensures plain { IfOk result (All IsPlainRow) }
{
    let mut rows = List::new(alloc);
    let mut seed: u64 = 1;
    for _ in 0..count {
        seed = seed
            .wrapping_mul(6364136223846793005)
            .wrapping_add(1442695040888963407);
        rows.push(row(alloc, seed.rotate_left(31))?)?;
    }
    Ok(rows)
}

/// A game of 1,000 whole variables and so many rows, where the universal player sets the first so many variables and is to
/// meet the rows that are given.
pub fn game(alloc: Global, count: u32, universals: u32, urows: List<Row>) -> Result<Game, Memory>
    requires count { count ≤ 2000 }
    requires universals { universals ≤ 1000 }
    requires few { length urows ≤ 1000 }
    requires urows { All (IsPlainUncertainty universals) urows }
{
    Ok(Game::new(Problem {
        sense: Sense::Max,
        vars: variables(alloc, universals)?,
        wholes: 1000,
        rows: rows(alloc, count)?,
        urows,
        terms: Terms::none(alloc),
        constant: 0,
        scale: 1,
    }))
}

fn count(end: &Propagated) -> usize {
    match end {
        Propagated::Narrowed { reasons, .. } => reasons.len(),
        Propagated::Dead { reasons, .. } => reasons.len(),
    }
}

fn reasons_in(alloc: Global, times: u32) -> Result<usize, Memory> {
    let game = game(alloc, 2000, 0, List::new(alloc))?;
    let mut reasons = 0;
    for _ in 0..times {
        let bx: Bx = whole_box(alloc, &game)?;
        let end = propagate(alloc, &game, bx)?;
        reasons = count(&end);
    }
    Ok(reasons)
}

/// How many reasons propagation gives on a game of 1,000 variables and 2,000 rows, which is propagated so many times;
/// 0 where it is not propagated.
pub fn reasons_line(alloc: Global, times: u32) -> Result<String, AllocError> {
    match reasons_in(alloc, times) {
        Ok(reasons) => format!(in alloc; "{reasons}"),
        Err(Memory) => String::from_str(alloc, "out of memory"),
    }
}
