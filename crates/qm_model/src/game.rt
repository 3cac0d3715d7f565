use crate::{Row, Terms, Var};
use qm_io::List;
use std::marker::Model;

/// Whether the file asks for the greatest or the least value. A problem itself is always maximised:
/// the objective of a minimised one is negated.
#[derive(Clone, Copy, Debug, PartialEq, Eq)]
pub enum Sense {
    Max,
    Min,
}

/// A quantified program: its variables in game order, of which the first `wholes` are whole; the
/// rows that the existential player must meet; the uncertainty rows that the universal player must
/// meet; and the objective (terms + constant) / scale.
#[derive(Debug, Drop)]
pub struct Problem {
    pub sense: Sense,
    pub vars: List<Var>,
    pub wholes: u32,
    pub rows: List<Row>,
    pub urows: List<Row>,
    pub terms: Terms,
    pub constant: i128,
    pub scale: i128,
}

/// A problem that is in order, and whose numbers are so small that no sum over a row overflows.
/// Contracts see it as the problem.
#[derive(Debug, Drop)]
pub struct Game {
    problem: Problem,
}

impl Model for Game {
    ghost use Rattle.qm_model.specs.declared.game.Problem.{Problem};
    ghost use Rattle.qm_model.specs.Sound.{IsSound};

    ghost Value = { Problem };

    ghost view = { λ g. g.problem };

    ghost invariant = { λ g. IsSound g.problem };
}

impl Game {
    ghost use Rattle.std.specs.Prelude.{◌≡◌};
    ghost use Rattle.qm_model.specs.Sound.{IsSound};

    /// The game of a problem that is in order.
    pub fn new(problem: Problem) -> Game
        requires { IsSound problem }
        ensures { result ≡ problem }
    {
        Game { problem }
    }

    pub fn problem(&self) -> &Problem
        ensures value { result.now ≡ self.now }
        ensures sound { IsSound result.now }
    {
        &self.problem
    }
}
