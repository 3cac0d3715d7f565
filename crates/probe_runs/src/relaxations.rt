ghost use Rattle.qm_model.specs.Boxes.{IsBox};
ghost use Rattle.qm_relax.specs.Scenarios.{FitLast};

use crate::ends::{combo_words, leaves_line};
use probe_words::{NoAnswer, fraction_text, fraction_words, leaves_text, wholes_of};
use qm_game::{Bx, Game, Goal};
use qm_io::{List, Memory};
use qm_relax::{
    Relaxed, RelaxedPoint, WhyNot, fits_last, relax, relax_point, scenario, scenario_point,
};
use qm_text::read_frac;
use qm_trees::Combo;
use std::alloc::{AllocError, Global};

/// What stands between the goal and the completion: the ranges. The goal comes first, `any` or a value that is to be
/// exceeded, and the completion behind `| scenario`.
pub fn ranges_in(words: &str) -> &str {
    let (before, _) = words.split_once("| ").unwrap_or((words, ""));
    let (_, ranges) = before.split_once(' ').unwrap_or((before, ""));
    ranges.trim_end()
}

fn goal_in(words: &str) -> Option<Goal> {
    let (goal, _) = words.split_once(' ').unwrap_or((words, ""));
    if goal == "any" {
        return Some(Goal::Any);
    }
    Some(Goal::Above(read_frac(goal.as_bytes()).ok()?))
}

/// What the relaxation of the box tells for the goal of the words, with a point where that is asked.
pub fn relax_line(
    alloc: Global,
    game: &Game,
    bx: &Bx,
    words: &str,
    pointed: bool,
) -> Result<String, AllocError>
    requires { IsBox game.now.vars bx.now }
{
    match goal_in(words) {
        None => String::from_str(alloc, NoAnswer::Spelling.line()),
        Some(goal) if pointed => pointed_line(alloc, &relax_point(alloc, game, bx, &goal)),
        Some(goal) => relaxed_line(alloc, &relax(alloc, game, bx, &goal)),
    }
}

/// The same for the box in which the completion of the words is fixed.
pub fn scenario_line(
    alloc: Global,
    game: &Game,
    bx: &Bx,
    words: &str,
    pointed: bool,
) -> Result<String, AllocError>
    requires { IsBox game.now.vars bx.now }
{
    let (_, completion) = words.split_once("| scenario").unwrap_or(("", ""));
    match wholes_of(alloc, completion) {
        Ok(values) if fits_last(game, bx, values.as_slice()) => {
            fixed_line(alloc, game, bx, &values, words, pointed)
        }
        Ok(_) => String::from_str(alloc, "no scenario"),
        Err(why) => String::from_str(alloc, why.line()),
    }
}

fn fixed_line(
    alloc: Global,
    game: &Game,
    bx: &Bx,
    values: &List<i64>,
    words: &str,
    pointed: bool,
) -> Result<String, AllocError>
    requires bx { IsBox game.now.vars bx.now }
    requires values { FitLast game.now bx.now values.now }
{
    let values = values.as_slice();
    match goal_in(words) {
        None => String::from_str(alloc, NoAnswer::Spelling.line()),
        Some(goal) if pointed => {
            pointed_line(alloc, &scenario_point(alloc, game, bx, values, &goal))
        }
        Some(goal) => relaxed_line(alloc, &scenario(alloc, game, bx, values, &goal)),
    }
}

fn relaxed_line(alloc: Global, answer: &Result<Relaxed, Memory>) -> Result<String, AllocError> {
    match answer {
        Ok(Relaxed::Closed(combo)) => closed_line(alloc, combo),
        Ok(Relaxed::Bound(value)) => {
            let value = fraction_text(alloc, *value)?;
            format!(in alloc; "bound {value}")
        }
        Ok(Relaxed::NoBound(why)) => no_bound_line(alloc, why),
        Err(Memory) => String::from_str(alloc, "memory"),
    }
}

fn pointed_line(
    alloc: Global,
    answer: &Result<RelaxedPoint, Memory>,
) -> Result<String, AllocError> {
    match answer {
        Ok(RelaxedPoint::Closed(combo)) => closed_line(alloc, combo),
        Ok(RelaxedPoint::Bound(best)) => {
            let value = fraction_text(alloc, best.value)?;
            let point = fraction_words(alloc, best.point.as_slice())?;
            let combo = combo_words(alloc, &best.combo)?;
            format!(in alloc; "bound {value} point{point} close{combo}")
        }
        Ok(RelaxedPoint::NoBound(why)) => no_bound_line(alloc, why),
        Err(Memory) => String::from_str(alloc, "memory"),
    }
}

fn closed_line(alloc: Global, combo: &Combo) -> Result<String, AllocError> {
    let combo = combo_words(alloc, combo)?;
    format!(in alloc; "closed close{combo}")
}

fn no_bound_line(alloc: Global, why: &WhyNot) -> Result<String, AllocError> {
    match why {
        WhyNot::Run(run) => {
            let leaves = leaves_line(alloc, run)?;
            format!(in alloc; "nobound {leaves}")
        }
        WhyNot::Combination(leaves) => {
            let operation = leaves_text(alloc, *leaves)?;
            format!(in alloc; "nobound combination {operation}")
        }
    }
}
