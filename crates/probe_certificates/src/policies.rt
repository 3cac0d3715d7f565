ghost use Rattle.qm_model.specs.Boxes.{IsBox};

use crate::trees::{range_at, tree_from};
use probe_words::{NoAnswer, bytes_of, test_line};
use qm_frac::Frac;
use qm_game::{Bx, Game};
use qm_io::List;
use qm_policy::test;
use qm_text::read_frac;
use qm_trees::{Below, Policy, PolicyPart};
use sqlite_items::{Boxed, Items};
use std::alloc::{AllocError, Global};

/// The deepest policy that is read.
const DEPTH: u32 = 1100;

// A policy, and the number of the line behind it.
#[derive(Debug, Drop)]
struct Read {
    policy: Policy,
    next: usize,
}

// What stands below a range, and the number of the line behind it.
#[derive(Debug, Drop)]
struct ReadBelow {
    below: Below,
    next: usize,
}

/// Whether the policy reaches the value over the box: `VALUE by LINES`, the lines joined by ` / `, or such words between
/// quotes, where parts may be repeated.
pub fn policy_line(alloc: Global, game: &Game, bx: Bx, words: &str) -> Result<String, AllocError>
    requires { IsBox game.now.vars bx }
{
    let mut bx = bx;
    let (value, lines) = words.split_once(" by ").unwrap_or((words, ""));
    match value_and_policy(alloc, value, lines) {
        Ok((value, policy)) => test_line(alloc, test(game, &mut bx, &value, &policy)),
        Err(why) => String::from_str(alloc, why.line()),
    }
}

fn value_and_policy(alloc: Global, value: &str, lines: &str) -> Result<(Frac, Policy), NoAnswer> {
    let value = fraction(value)?;
    let lines = unquoted(alloc, lines)?;
    let policy = policy_of(alloc, lines.as_str())?;
    Ok((value, policy))
}

/// The fraction of a word as in certificates.
pub fn fraction(word: &str) -> Result<Frac, NoAnswer> {
    read_frac(word.as_bytes()).map_err(|_| NoAnswer::Spelling)
}

// The words between quotes with their parts repeated, or the words as they are.
fn unquoted(alloc: Global, words: &str) -> Result<String, NoAnswer> {
    if !words.starts_with("\"") {
        return Ok(String::from_str(alloc, words)?);
    }
    match bytes_of(alloc, words)? {
        Some(bytes) => Ok(String::from_utf8_lossy(alloc, &bytes)?),
        None => Err(NoAnswer::Spelling),
    }
}

/// The policy of lines as in certificates, joined by ` / `.
pub fn policy_of(alloc: Global, text: &str) -> Result<Policy, NoAnswer> {
    let lines: Vec<&str> = text.split(" / ").collect(alloc)?;
    let read = policy_at(alloc, lines.as_slice(), 0, DEPTH)?;
    if read.next == lines.len() {
        Ok(read.policy)
    } else {
        Err(NoAnswer::Spelling)
    }
}

#[cycle(policies)]
fn policy_at(alloc: Global, lines: &[&str], at: usize, depth: u32) -> Result<Read, NoAnswer> {
    if depth == 0 || at >= lines.len() {
        return Err(NoAnswer::Spelling);
    }
    let line = lines[at];
    if let Some(value) = line.strip_prefix("choose ") {
        return choice_at(alloc, lines, at + 1, depth - 1, value);
    }
    if let Some(count) = line.strip_prefix("answer ") {
        return answers_at(alloc, lines, at + 1, depth - 1, count);
    }
    let values = line.strip_prefix("leaf").ok_or(NoAnswer::Spelling)?;
    Ok(Read {
        policy: leaf_of(alloc, values)?,
        next: at + 1,
    })
}

#[cycle(policies)]
fn choice_at(
    alloc: Global,
    lines: &[&str],
    at: usize,
    depth: u32,
    value: &str,
) -> Result<Read, NoAnswer> {
    let value = value.parse::<i64>().map_err(|_| NoAnswer::Spelling)?;
    let read = policy_at(alloc, lines, at, depth)?;
    Ok(Read {
        policy: Policy::Choose {
            value,
            below: Boxed::new(alloc, read.policy)?,
        },
        next: read.next,
    })
}

#[cycle(policies)]
fn answers_at(
    alloc: Global,
    lines: &[&str],
    at: usize,
    depth: u32,
    count: &str,
) -> Result<Read, NoAnswer> {
    let count = count.parse::<u32>().map_err(|_| NoAnswer::Spelling)?;
    let mut parts = Items::new(alloc);
    let mut next = at;
    for _ in 0..count {
        let range = range_at(lines, next).ok_or(NoAnswer::Spelling)?;
        let read = below_at(alloc, lines, next + 1, depth)?;
        parts.push(PolicyPart {
            range,
            below: read.below,
        })?;
        next = read.next;
    }
    Ok(Read {
        policy: Policy::Answer { parts },
        next,
    })
}

#[cycle(policies)]
fn below_at(alloc: Global, lines: &[&str], at: usize, depth: u32) -> Result<ReadBelow, NoAnswer> {
    if at >= lines.len() {
        return Err(NoAnswer::Spelling);
    }
    if lines[at].starts_with("illegal") {
        let read = tree_from(alloc, lines, at + 1)?;
        return Ok(ReadBelow {
            below: Below::Illegal(read.tree),
            next: read.next,
        });
    }
    let read = policy_at(alloc, lines, at, depth)?;
    Ok(ReadBelow {
        below: Below::On(read.policy),
        next: read.next,
    })
}

fn leaf_of(alloc: Global, values: &str) -> Result<Policy, NoAnswer> {
    let mut point = List::new(alloc);
    for word in values.split(' ') {
        if !word.is_empty() {
            point.push(fraction(word)?)?;
        }
    }
    Ok(Policy::Leaf { point })
}
