ghost use Rattle.std.specs.Prelude.{All};
ghost use Rattle.qm_model.specs.Boxes.{IsBox};
ghost use Rattle.qm_model.specs.Sound.{IsRowOver};
ghost use Rattle.qm_trees.specs.RefuteRight.{AreNamed};

use crate::combos::{are_named, combo_of};
use probe_words::{fraction_text, leaves_line};
use qm_combo::{closes, value};
use qm_frac::Leaves;
use qm_game::{Bx, Game, Goal, Row};
use qm_text::read_frac;
use qm_trees::{Combo, ComboValue};
use std::alloc::{AllocError, Global};

/// What the combination comes to over the box; or, where a goal stands behind it, as `for any` or `for above 3`, whether
/// it closes that.
pub fn combination_line(
    alloc: Global,
    game: &Game,
    cuts: &[Row],
    bx: &Bx,
    words: &str,
) -> Result<String, AllocError>
    requires cuts { All (IsRowOver game.now.vars) cuts.now }
    requires bx { IsBox game.now.vars bx.now }
{
    let (entries, goal) = words.split_once(" for ").unwrap_or((words, ""));
    match combo_of(alloc, entries.strip_prefix(" ").unwrap_or("")) {
        Ok(combo) => {
            if !are_named(game, cuts, combo.entries()) {
                return String::from_str(alloc, "no entry");
            }
            if goal.is_empty() {
                return value_line(alloc, value(game, cuts, bx, &combo));
            }
            goal_line(alloc, game, cuts, bx, &combo, goal)
        }
        Err(why) => String::from_str(alloc, why.line()),
    }
}

fn value_line(alloc: Global, value: Result<ComboValue, Leaves>) -> Result<String, AllocError> {
    match value {
        Ok(value) => value_text(alloc, value),
        Err(leaves) => leaves_line(alloc, leaves),
    }
}

fn value_text(alloc: Global, value: ComboValue) -> Result<String, AllocError> {
    match value {
        ComboValue::Nothing => String::from_str(alloc, "nothing"),
        ComboValue::Void => String::from_str(alloc, "void"),
        ComboValue::Bound(bound) => {
            let bound = fraction_text(alloc, bound)?;
            format!(in alloc; "bound {bound}")
        }
    }
}

fn goal_line(
    alloc: Global,
    game: &Game,
    cuts: &[Row],
    bx: &Bx,
    combo: &Combo,
    goal: &str,
) -> Result<String, AllocError>
    requires cuts { All (IsRowOver game.now.vars) cuts.now }
    requires named { AreNamed game.now cuts.now combo.now.entries }
    requires bx { IsBox game.now.vars bx.now }
{
    match read_goal(goal) {
        Some(goal) => match closes(game, cuts, bx, &goal, combo) {
            Ok(true) => String::from_str(alloc, "closes"),
            Ok(false) => String::from_str(alloc, "stays open"),
            Err(leaves) => leaves_line(alloc, leaves),
        },
        None => String::from_str(alloc, "?"),
    }
}

/// The goal of the words `any` or `above VALUE`.
pub fn read_goal(words: &str) -> Option<Goal> {
    if words == "any" {
        return Some(Goal::Any);
    }
    let least = words.strip_prefix("above ")?;
    Some(Goal::Above(read_frac(least.as_bytes()).ok()?))
}
