ghost use Rattle.std.specs.Prelude.{List};
ghost use Rattle.qm_model.specs.declared.variable.Var.{Var};
ghost use Rattle.qm_model.specs.Boxes.{IsBox};

use crate::answer::unasked;
use bench_made::{Made, continuous_text_of, game_of};
use qm_frac::Frac;
use qm_game::{Bx, Game, Goal, Range, has_empty, try_narrow, whole_box};
use qm_io::{List, Memory};
use qm_relax::{Relaxed, relax};
use qm_simplex::{LpEnd, LpFault, solve_lp};
use qm_tableau::first;
use std::alloc::Global;

// What is done with each box of a play.
#[derive(Clone, Copy)]
enum Part {
    // Its first tableau is made.
    First,
    // Its relaxation is solved.
    Solve,
    // It is relaxed.
    Relax,
}

impl Part {
    fn read(word: &str) -> Option<Part> {
        match word {
            "first" => Some(Part::First),
            "solve" => Some(Part::Solve),
            "relax" => Some(Part::Relax),
            _ => None,
        }
    }
}

// The boxes of a random play of a made problem, of which the first so many variables are whole, with values that its number
// decides. Either all of them, or those whose run makes no pivot.
#[derive(Clone, Copy)]
struct Play {
    part: Part,
    still: bool,
    made: Made,
    wholes: u32,
    times: u32,
}

// How many boxes there were, and how many pivots their runs make.
#[derive(Clone, Copy)]
struct Walked {
    boxes: u64,
    pivots: u64,
}

impl Play {
    fn read(words: &[String]) -> Option<Play> {
        match words {
            [part, boxes, size, wholes, number, times] => Some(Play {
                part: Part::read(part.as_str())?,
                still: boxes.as_str() == "still",
                made: Made::read(size.as_str(), number.as_str())?,
                wholes: wholes.as_str().parse::<u32>().ok()?,
                times: times.as_str().parse::<u32>().ok()?,
            }),
            _ => None,
        }
    }

    // Walks along the play so many times; what there was to walk along, nothing where there is no such problem.
    fn walked(self, alloc: Global) -> Result<Walked, Memory> {
        let text = continuous_text_of(alloc, self.made, self.wholes)?;
        match game_of(alloc, text.as_str()) {
            Some(game) => self.walked_on(alloc, &game),
            None => Ok(Walked {
                boxes: 0,
                pivots: 0,
            }),
        }
    }

    fn walked_on(self, alloc: Global, game: &Game) -> Result<Walked, Memory> {
        let chosen = pivots_along(alloc, game, self.made.number())?;
        let mut walked = Walked {
            boxes: 0,
            pivots: 0,
        };
        for pivots in chosen.as_slice() {
            if !self.still || *pivots == 0 {
                walked.boxes = walked.boxes.wrapping_add(1);
                walked.pivots = walked.pivots.wrapping_add(*pivots);
            }
        }
        for _ in 0..self.times {
            self.walk(alloc, game, chosen.as_slice())?;
        }
        Ok(walked)
    }

    fn walk(self, alloc: Global, game: &Game, pivots: &[u64]) -> Result<(), Memory> {
        let mut bx = whole_box(alloc, game)?;
        for (depth, pivots) in pivots.iter().enumerate() {
            if !self.still || *pivots == 0 {
                self.part.done(alloc, game, &bx)?;
            }
            set_next(&mut bx, depth, self.made.number());
        }
        Ok(())
    }
}

/// How many boxes were gone through, and how many pivots their runs make.
pub fn boxes_line(alloc: Global, words: &[String]) -> Result<String, Memory> {
    match Play::read(words) {
        Some(play) => {
            let walked = play.walked(alloc)?;
            let boxes = walked.boxes;
            let pivots = walked.pivots;
            Ok(format!(in alloc; "{boxes} {pivots}")?)
        }
        None => unasked(alloc),
    }
}

impl Part {
    fn done(self, alloc: Global, game: &Game, bx: &Bx) -> Result<u64, Memory>
        requires { IsBox game.now.vars bx.now }
    {
        match self {
            Part::First => {
                let tableau = first(alloc, game, &[], bx)?;
                Ok(tableau.rows_of_columns().len() as u64)
            }
            Part::Solve => pivots_over(alloc, game, bx),
            Part::Relax => match relax(alloc, game, bx, &Goal::Above(Frac::whole(0)))? {
                Relaxed::Closed(_) => Ok(0),
                Relaxed::Bound(_) => Ok(1),
                Relaxed::NoBound(_) => Ok(2),
            },
        }
    }
}

// How many pivots the run makes over each box of the play, from the whole box on.
fn pivots_along(alloc: Global, game: &Game, seed: u32) -> Result<List<u64>, Memory> {
    let mut pivots = List::new(alloc);
    let mut bx = whole_box(alloc, game)?;
    for depth in 0..game.problem().wholes as usize + 1 {
        pivots.push(pivots_over(alloc, game, &bx)?)?;
        set_next(&mut bx, depth, seed);
    }
    Ok(pivots)
}

fn pivots_over(alloc: Global, game: &Game, bx: &Bx) -> Result<u64, Memory>
    requires { IsBox game.now.vars bx.now }
{
    if has_empty(bx) {
        return Ok(0);
    }
    match solve_lp(alloc, game, &[], bx) {
        Ok(LpEnd::Best { pivots, .. }) => Ok(pivots),
        Ok(LpEnd::Void { pivots, .. }) => Ok(pivots),
        Err(LpFault::Leaves(run)) => Ok(run.pivots.len() as u64),
        Err(LpFault::Memory) => Err(Memory),
    }
}

// Sets the variable of this number at an end of its range, for one draw of two at the low one.
fn set_next(bx: &mut Bx, var: usize, seed: u32)
    ensures { (vars : List Var) → IsBox vars bx.old → IsBox vars bx.new }
{
    let Some(range) = bx.as_slice().get(var) else {
        return;
    };
    let drawn = (var as u64 + 1).wrapping_mul(u64::from(seed) + 40_503) / 7 % 3;
    let value = if drawn == 0 { range.high } else { range.low };
    let to = Range {
        low: value,
        high: value,
    };
    if let Ok(var) = u32::try_from(var) {
        try_narrow(bx, var, to);
    }
}
