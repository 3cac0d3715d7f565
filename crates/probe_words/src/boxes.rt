ghost use Rattle.std.specs.Prelude.{IfOk, List};
ghost use Rattle.qm_model.specs.declared.variable.Var.{Var};
ghost use Rattle.qm_model.specs.Boxes.{IsBox};

use crate::no_answer::NoAnswer;
use qm_game::{Bx, Game, Range, try_narrow, whole_box};
use std::alloc::Global;

/// The game's whole box where there are no words, else the box of the ranges `LOW..HIGH`, one for each variable.
pub fn box_of(alloc: Global, game: &Game, words: &str) -> Result<Bx, NoAnswer>
    ensures { IfOk result (IsBox game.now.vars) }
{
    if words.is_empty() {
        Ok(whole_box(alloc, game)?)
    } else {
        box_of_ranges(alloc, game, words)
    }
}

fn box_of_ranges(alloc: Global, game: &Game, words: &str) -> Result<Bx, NoAnswer>
    ensures { IfOk result (IsBox game.now.vars) }
{
    let mut bx = whole_box(alloc, game)?;
    if words.split(' ').count() != bx.len() {
        return Err(NoAnswer::Count);
    }
    for (var, word) in words.split(' ').enumerate() {
        match (read_range(word), u32::try_from(var)) {
            (Some(to), Ok(var)) => narrow_one(&mut bx, var, to)?,
            _ => return Err(NoAnswer::Spelling),
        }
    }
    Ok(bx)
}

fn narrow_one(bx: &mut Bx, var: u32, to: Range) -> Result<(), NoAnswer>
    ensures { (vars : List Var) → IsBox vars bx.old → IsBox vars bx.new }
{
    if try_narrow(bx, var, to) {
        Ok(())
    } else {
        Err(NoAnswer::Outside)
    }
}

fn read_range(word: &str) -> Option<Range> {
    let (low, high) = word.split_once("..")?;
    Some(Range {
        low: low.parse::<i64>().ok()?,
        high: high.parse::<i64>().ok()?,
    })
}
