ghost use Rattle.std.specs.Prelude.{◌<◌, IfSome, length};

use crate::combos::{combo_of, read_number};
use probe_words::NoAnswer;
use qm_game::Range;
use qm_trees::{Empty, EmptyPart};
use sqlite_items::Items;
use std::alloc::Global;

/// The deepest tree that is read.
const DEPTH: u32 = 8;

/// A tree, and the number of the line behind it.
#[derive(Debug, Drop)]
pub struct Read {
    pub tree: Empty,
    pub next: usize,
}

/// The tree of lines as below `illegal` in certificates, joined by ` / `.
pub fn tree_of(alloc: Global, text: &str) -> Result<Empty, NoAnswer> {
    let lines: Vec<&str> = text.split(" / ").collect(alloc)?;
    let read = tree_from(alloc, lines.as_slice(), 0)?;
    if read.next == lines.len() {
        Ok(read.tree)
    } else {
        Err(NoAnswer::Spelling)
    }
}

/// The tree that begins at this line.
pub fn tree_from(alloc: Global, lines: &[&str], at: usize) -> Result<Read, NoAnswer> {
    tree_at(alloc, lines, at, DEPTH)
}

#[cycle(trees)]
fn tree_at(alloc: Global, lines: &[&str], at: usize, depth: u32) -> Result<Read, NoAnswer> {
    if depth == 0 || at >= lines.len() {
        return Err(NoAnswer::Spelling);
    }
    let line = lines[at];
    if let Some(entries) = line.strip_prefix("close") {
        let combo = combo_of(alloc, entries.strip_prefix(" ").unwrap_or(""))?;
        return Ok(Read {
            tree: Empty::Close(combo),
            next: at + 1,
        });
    }
    match read_split(line) {
        Some((var, count)) => parts_at(alloc, lines, at + 1, depth - 1, var, count),
        None => Err(NoAnswer::Spelling),
    }
}

#[cycle(trees)]
fn parts_at(
    alloc: Global,
    lines: &[&str],
    at: usize,
    depth: u32,
    var: u32,
    count: u32,
) -> Result<Read, NoAnswer> {
    let mut parts = Items::new(alloc);
    let mut next = at;
    for _ in 0..count {
        let range = range_at(lines, next).ok_or(NoAnswer::Spelling)?;
        let read = tree_at(alloc, lines, next + 1, depth)?;
        parts.push(EmptyPart {
            range,
            below: read.tree,
        })?;
        next = read.next;
    }
    Ok(Read {
        tree: Empty::Split { var, parts },
        next,
    })
}

// `split P K`: the variable, and how many parts there are.
fn read_split(line: &str) -> Option<(u32, u32)> {
    let (var, count) = line.strip_prefix("split ")?.split_once(' ')?;
    Some((read_number(var)?, count.parse::<u32>().ok()?))
}

/// The range of the line `range LOW HIGH` at this place.
pub fn range_at(lines: &[&str], at: usize) -> Option<Range>
    ensures { IfSome result (λ range. at < length lines.now) }
{
    let line = lines.get(at)?;
    let (low, high) = line.strip_prefix("range ")?.split_once(' ')?;
    Some(Range {
        low: low.parse::<i64>().ok()?,
        high: high.parse::<i64>().ok()?,
    })
}
