ghost use Rattle.std.specs.Prelude.{◌≡◌, ◌≤◌, drop};
ghost use Rattle.qm_model.specs.Plays.{whole_vars};

use crate::{Bx, Game, Range, Var};
use qm_model::range_in;

/// Where a walk through the whole variables of a game stands: those that are still to be set, and how many are set.
#[derive(Clone, Copy, Debug)]
pub struct Place<'a> {
    pub game: &'a Game,
    pub rest: &'a [Var],
    pub depth: usize,
    pub ghost from_depth: { rest.now ≡ drop depth (whole_vars game.now) },
}

impl<'a> Place<'a> {
    ghost use Rattle.std.specs.Prelude.{◌≡◌, ◌+◌, ◌≤◌, ◌<◌, drop, length, slice_set};
    ghost use Rattle.qm_model.specs.Boxes.{IsBox};
    ghost use Rattle.qm_model.specs.Plays.{whole_vars};
    ghost use Rattle.qm_model.specs.Ranges.{range_at};

    /// Where these many variables are set.
    pub fn at(game: &'a Game, depth: usize) -> Place<'a>
        requires { depth ≤ game.now.wholes }
        ensures game { result.game.now ≡ game.now }
        ensures depth { result.depth ≡ depth }
    {
        let problem = game.problem();
        Place {
            game,
            rest: &problem.vars.as_slice()[depth..problem.wholes as usize],
            depth,
        }
    }

    /// Where the next variable is set too.
    pub fn behind(self) -> Place<'a>
        requires { 0 < length self.rest.now }
        ensures game { result.game.now ≡ self.entry.game.now }
        ensures rest { result.rest.now ≡ drop 1 self.entry.rest.now }
        ensures depth { result.depth ≡ self.entry.depth + 1 }
    {
        // that there are few variables
        let _problem = self.game.problem();
        Place {
            game: self.game,
            rest: &self.rest[1..],
            depth: self.depth + 1,
        }
    }

    /// The range of the next variable.
    pub fn range(self, bx: &Bx) -> Range
        requires some { 0 < length self.rest.now }
        requires bx { IsBox self.game.now.vars bx.now }
        ensures { result ≡ range_at bx.now self.entry.depth }
    {
        range_in(bx.as_slice(), self.depth)
    }

    /// Puts a range in the place of the next variable's range.
    pub fn put(self, bx: &mut Bx, to: Range)
        requires some { 0 < length self.rest.now }
        requires bx { IsBox self.game.now.vars bx.old }
        ensures { bx.new ≡ slice_set bx.old self.entry.depth to }
    {
        bx.set(self.depth, to)
    }
}
