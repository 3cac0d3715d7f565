ghost use Rattle.std.specs.Prelude.{◌≡◌, IsTrue, MatchOption, false, true};
ghost use Rattle.qm_model.specs.declared.variable.Player.TheVariants.{All as Universal};
ghost use Rattle.qm_journal.specs.Lawful.{has_rows};
ghost use Rattle.qm_legal.specs.SearchSteps.{IsCompleted, SetsNext};
ghost use Rattle.qm_legal.specs.JournalSteps.{IsAliveValue, IsOpenBox};

use crate::dead::dead_row_with;
use crate::part::dead_range;
use crate::run::{is_left, single_at};
use qm_game::{Bx, Place, Range};
use qm_model::{after, is_for_all, start};

/// The first value of the next variable over which no uncertainty row is dead. The box stays as it was.
fn first_alive(here: Place<'_>, bx: &mut Bx) -> Option<Range>
    requires bx { IsOpenBox here.game.now here.depth bx.old }
    requires player { SetsNext Universal here.rest.now }
    ensures first { MatchOption result (IsTrue (has_rows here.entry.game.now.urows)) (IsAliveValue here.entry.game.now here.entry.depth bx.old) }
    ensures same { bx.new ≡ bx.old }
{
    let covered = here.range(bx);
    let mut next = start(covered);
    while is_left(next, covered) {
        let run = single_at(next, covered);
        match dead_row_with(here, bx, run) {
            None => return Some(run),
            Some(number) => next = after(dead_range(here, number, bx, run, covered)),
        }
    }
    None
}

/// Sets each later universal variable to its first value over which no uncertainty row is dead, and tells whether all
/// have one. It takes nothing back, so where it fails there may still be a play.
#[cycle(guess)]
pub fn guess(here: Place<'_>, bx: &mut Bx) -> bool
    requires { IsOpenBox here.game.now here.depth bx.old }
    ensures guessed { result ≡ true → IsCompleted here.entry.game.now here.entry.depth bx.old bx.new }
    ensures restricted { result ≡ false → IsTrue (has_rows here.entry.game.now.urows) }
{
    match here.rest.split_first() {
        None => true,
        Some((var, _later)) => {
            if is_for_all(var) {
                guess_value(here, bx)
            } else {
                guess(here.behind(), bx)
            }
        }
    }
}

/// The same from the next variable on, which the universal player sets.
#[cycle(guess)]
fn guess_value(here: Place<'_>, bx: &mut Bx) -> bool
    requires bx { IsOpenBox here.game.now here.depth bx.old }
    requires player { SetsNext Universal here.rest.now }
    ensures guessed { result ≡ true → IsCompleted here.entry.game.now here.entry.depth bx.old bx.new }
    ensures restricted { result ≡ false → IsTrue (has_rows here.entry.game.now.urows) }
{
    match first_alive(here, bx) {
        None => false,
        Some(run) => {
            here.put(bx, run);
            guess(here.behind(), bx)
        }
    }
}
