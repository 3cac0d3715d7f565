ghost use Rattle.qm_search.specs.PartSteps.{IsStart};

use crate::outcome::Outcome;
use crate::remembered::Remembered;
use crate::start::{highest, nearest_in};
use qm_game::{Bx, Game, Place};
use qm_io::{List, Memory};
use qm_model::Range;
use std::alloc::Global;

/// What a search has seen that tells with which values to begin. It changes no answer's truth, so no clause speaks of it.
#[derive(Debug, Drop)]
pub struct Guides {
    /// By depth, the value of a universal variable that ended a visit last.
    ending: List<i64>,
    /// The policies that visits found.
    pub remembered: Remembered,
}

impl Guides {
    /// Nothing seen yet.
    pub fn new(alloc: Global, game: &Game) -> Result<Guides, Memory> {
        let mut ending = List::new(alloc);
        for variable in game.problem().vars.as_slice() {
            ending.push(variable.high)?;
        }
        Ok(Guides {
            ending,
            remembered: Remembered::new(alloc, game)?,
        })
    }

    /// The value of the range with which to begin at this depth: the one that ended a visit last, or the highest.
    pub fn start(&self, range: Range, depth: usize) -> i64
        ensures { IsStart range result }
    {
        match self.ending.as_slice().get(depth) {
            Some(value) => nearest_in(range, *value as i128),
            None => highest(range),
        }
    }

    /// A visit at this depth has ended by this value.
    pub fn note(&mut self, depth: usize, value: i64) {
        if depth < self.ending.len() {
            self.ending.set(depth, value);
        }
    }

    /// Keeps the policy of the outcome of a box.
    pub fn keep(
        &mut self,
        alloc: Global,
        here: Place<'_>,
        bx: &Bx,
        outcome: &Outcome,
    ) -> Result<(), Memory> {
        match outcome {
            Outcome::Under(_) => Ok(()),
            Outcome::At { value, policy, .. } => {
                self.remembered.keep(alloc, here, bx, *value, policy)
            }
            Outcome::Over { value, policy } => {
                self.remembered.keep(alloc, here, bx, *value, policy)
            }
        }
    }
}
