ghost use Rattle.std.specs.Prelude.{◌≡◌, ◌<◌, ◌^◌, ◌↔◌, All, IsTrue, MatchOption, false, length, slice_set};
ghost use Rattle.qm_model.specs.Boxes.{IsBox, IsDead, IsInside};
ghost use Rattle.qm_model.specs.Sound.{IsRowOver};
ghost use Rattle.qm_game.specs.First.{HasNone, IsFirst};
ghost use Rattle.qm_model.specs.Linear.{IsOrdered};
ghost use Rattle.qm_model.specs.Ranges.{range_at};
ghost use Rattle.qm_legal.specs.SearchSteps.{names};

use qm_game::{Bx, Game, Place, Range, Row, Term, least};

/// Whether the row is dead over the box.
fn is_dead(game: &Game, row: &Row, bx: &Bx) -> bool
    requires row { IsRowOver game.now.vars row.now }
    requires bx { IsBox game.now.vars bx.now }
    ensures { IsTrue result ↔ IsDead bx.now row.now }
{
    least(row, bx) > row.right
}

/// The number of the first row that is dead over the box.
fn first_dead(game: &Game, rows: &[Row], bx: &Bx) -> Option<u32>
    requires few { length rows.now < 2 ^ 29 }
    requires rows { All (IsRowOver game.now.vars) rows.now }
    requires bx { IsBox game.now.vars bx.now }
    ensures { MatchOption result (HasNone (IsDead bx.now) rows.now) (IsFirst (IsDead bx.now) rows.now) }
{
    for (number, row) in rows.iter().enumerate() {
        if is_dead(game, row, bx) {
            return Some(number as u32);
        }
    }
    None
}

/// The number of the first uncertainty row that is dead over the box.
pub fn dead_row(game: &Game, bx: &Bx) -> Option<u32>
    requires { IsBox game.now.vars bx.now }
    ensures { MatchOption result (HasNone (IsDead bx.now) game.now.urows) (IsFirst (IsDead bx.now) game.now.urows) }
{
    let problem = game.problem();
    first_dead(game, problem.urows.as_slice(), bx)
}

/// Whether the row is dead once the next variable has this range. The box stays as it was.
pub fn is_dead_with(here: Place<'_>, row: &Row, bx: &mut Bx, range: Range) -> bool
    requires row { IsRowOver here.game.now.vars row.now }
    requires bx { IsBox here.game.now.vars bx.old }
    requires some { 0 < length here.rest.now }
    requires inside { IsInside range (range_at bx.old here.depth) }
    ensures answer { IsTrue result ↔ IsDead (slice_set bx.old here.entry.depth range) row.now }
    ensures same { bx.new ≡ bx.old }
{
    let before = here.range(bx);
    here.put(bx, range);
    let answer = is_dead(here.game, row, bx);
    here.put(bx, before);
    answer
}

/// Whether one of the terms, which are in game order, is of the variable. It is looked for by halves.
fn names(terms: &[Term], var: usize) -> bool
    requires { IsOrdered terms.now }
    ensures { result ≡ names var terms.now }
{
    let mut low = 0;
    let mut high = terms.len();
    while low < high {
        let middle = low + (high - low) / 2;
        let found = terms[middle].var as usize;
        if found == var {
            return true;
        }
        if found < var {
            low = middle + 1;
        } else {
            high = middle;
        }
    }
    false
}

/// Whether the row is dead over the box, where it isn't unless it names the variable.
fn is_dead_by(game: &Game, row: &Row, var: usize, bx: &Bx) -> bool
    requires row { IsRowOver game.now.vars row.now }
    requires bx { IsBox game.now.vars bx.now }
    requires others { names var row.now.terms ≡ false → ¬ IsDead bx.now row.now }
    ensures { IsTrue result ↔ IsDead bx.now row.now }
{
    names(row.terms.as_slice(), var) && is_dead(game, row, bx)
}

/// The number of the first row that is dead over the box, where none is that doesn't name the variable.
fn first_dead_by(game: &Game, rows: &[Row], var: usize, bx: &Bx) -> Option<u32>
    requires few { length rows.now < 2 ^ 29 }
    requires rows { All (IsRowOver game.now.vars) rows.now }
    requires bx { IsBox game.now.vars bx.now }
    requires others { All (λ row. names var row.terms ≡ false → ¬ IsDead bx.now row) rows.now }
    ensures { MatchOption result (HasNone (IsDead bx.now) rows.now) (IsFirst (IsDead bx.now) rows.now) }
{
    for (number, row) in rows.iter().enumerate() {
        if is_dead_by(game, row, var, bx) {
            return Some(number as u32);
        }
    }
    None
}

/// The number of the first uncertainty row that is dead once the next variable has this range, where none is before: a
/// row that doesn't name the variable isn't dead then either. The box stays as it was.
pub fn dead_row_with(here: Place<'_>, bx: &mut Bx, range: Range) -> Option<u32>
    requires bx { IsBox here.game.now.vars bx.old }
    requires alive { HasNone (IsDead bx.old) here.game.now.urows }
    requires some { 0 < length here.rest.now }
    requires inside { IsInside range (range_at bx.old here.depth) }
    ensures row { let with = slice_set bx.old here.entry.depth range in MatchOption result (HasNone (IsDead with) here.entry.game.now.urows) (IsFirst (IsDead with) here.entry.game.now.urows) }
    ensures same { bx.new ≡ bx.old }
{
    let before = here.range(bx);
    here.put(bx, range);
    let problem = here.game.problem();
    let answer = first_dead_by(here.game, problem.urows.as_slice(), here.depth, bx);
    here.put(bx, before);
    answer
}
