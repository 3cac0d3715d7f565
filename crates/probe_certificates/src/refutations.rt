ghost use Rattle.std.specs.Prelude.{All};
ghost use Rattle.qm_model.specs.Boxes.{IsBox};
ghost use Rattle.qm_model.specs.Sound.{IsRowOver};

use crate::combinations::read_goal;
use crate::combos::combo_of;
use crate::trees::range_at;
use probe_words::{NoAnswer, test_line, wholes_of};
use qm_game::{Bx, Game, Goal, Row};
use qm_refute::test;
use qm_trees::{Refute, RefutePart};
use sqlite_items::{Boxed, Items};
use std::alloc::{AllocError, Global};

/// The deepest refutation that is read.
const DEPTH: u32 = 8;

// A refutation, and the number of the line behind it.
#[derive(Debug, Drop)]
struct Read {
    tree: Refute,
    next: usize,
}

/// Whether the refutation shows that the goal is out of reach over the box: `GOAL by LINES`, the lines joined by ` / `.
pub fn refutation_line(
    alloc: Global,
    game: &Game,
    cuts: &[Row],
    bx: Bx,
    words: &str,
) -> Result<String, AllocError>
    requires cuts { All (IsRowOver game.now.vars) cuts.now }
    requires bx { IsBox game.now.vars bx }
{
    let mut bx = bx;
    let (goal, lines) = words.split_once(" by ").unwrap_or((words, ""));
    match goal_and_tree(alloc, goal, lines) {
        Ok((goal, tree)) => test_line(alloc, test(game, cuts, 0, &mut bx, &goal, &tree)),
        Err(why) => String::from_str(alloc, why.line()),
    }
}

fn goal_and_tree(alloc: Global, goal: &str, lines: &str) -> Result<(Goal, Refute), NoAnswer> {
    let goal = read_goal(goal).ok_or(NoAnswer::Spelling)?;
    let tree = refutation_of(alloc, lines)?;
    Ok((goal, tree))
}

/// The refutation of lines as in certificates, joined by ` / `.
pub fn refutation_of(alloc: Global, text: &str) -> Result<Refute, NoAnswer> {
    let lines: Vec<&str> = text.split(" / ").collect(alloc)?;
    let read = refutation_at(alloc, lines.as_slice(), 0, DEPTH)?;
    if read.next == lines.len() {
        Ok(read.tree)
    } else {
        Err(NoAnswer::Spelling)
    }
}

#[cycle(refutations)]
fn refutation_at(alloc: Global, lines: &[&str], at: usize, depth: u32) -> Result<Read, NoAnswer> {
    if depth == 0 || at >= lines.len() {
        return Err(NoAnswer::Spelling);
    }
    let line = lines[at];
    if let Some(count) = line.strip_prefix("over ") {
        return over_at(alloc, lines, at + 1, depth - 1, count);
    }
    if let Some(values) = line.strip_prefix("pick ") {
        return pick_at(alloc, lines, at + 1, depth - 1, values);
    }
    let entries = line.strip_prefix("close").ok_or(NoAnswer::Spelling)?;
    let combo = combo_of(alloc, entries.strip_prefix(" ").unwrap_or(""))?;
    Ok(Read {
        tree: Refute::Close(combo),
        next: at + 1,
    })
}

#[cycle(refutations)]
fn over_at(
    alloc: Global,
    lines: &[&str],
    at: usize,
    depth: u32,
    count: &str,
) -> Result<Read, NoAnswer> {
    let count = count.parse::<u32>().map_err(|_| NoAnswer::Spelling)?;
    let mut parts = Items::new(alloc);
    let mut next = at;
    for _ in 0..count {
        let range = range_at(lines, next).ok_or(NoAnswer::Spelling)?;
        let read = refutation_at(alloc, lines, next + 1, depth)?;
        parts.push(RefutePart {
            range,
            below: read.tree,
        })?;
        next = read.next;
    }
    Ok(Read {
        tree: Refute::Over { parts },
        next,
    })
}

#[cycle(refutations)]
fn pick_at(
    alloc: Global,
    lines: &[&str],
    at: usize,
    depth: u32,
    values: &str,
) -> Result<Read, NoAnswer> {
    let (value, later) = values.split_once(' ').unwrap_or((values, ""));
    let value = value.parse::<i64>().map_err(|_| NoAnswer::Spelling)?;
    let completion = wholes_of(alloc, later)?;
    let read = refutation_at(alloc, lines, at, depth)?;
    Ok(Read {
        tree: Refute::Pick {
            value,
            completion,
            below: Boxed::new(alloc, read.tree)?,
        },
        next: read.next,
    })
}
