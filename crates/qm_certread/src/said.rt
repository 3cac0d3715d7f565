ghost use Rattle.std.specs.Prelude.{◌≡◌, ◌≤◌, ◌+◌, ◌∷◌, [], codes, false, length, Some};
ghost use Rattle.qm_model.specs.Plays.{whole_vars};
ghost use Rattle.qm_certread.specs.Pieces.{words_of};
ghost use Rattle.qm_certread.specs.Nodes.{Split};
ghost use Rattle.qm_certread.specs.Spelling.{combination_said, count_word, each_of, fraction_word, one, value_word, with_both, with_entries};
ghost use Rattle.qm_certread.specs.Forms.{claim_said, empty_said, is_kind, move_said, pick_said, position_said, range_of, range_said, refute_said, said_as, said_behind, split_said};
ghost use Rattle.qm_certfile.specs.Styles.{first_style};
ghost use Rattle.qm_certread.specs.WordSteps.{Gives, words_behind};
ghost use Rattle.qm_certread.specs.SaidSteps.{GivesNode, PicksOf, claim_node, empty_node, position_from, refute_node};

use crate::fault::{Misread, Unread};
use crate::lists::{Spoken, each, each_of};
use crate::order::are_in_order;
use crate::places::{later, player_at, universal_count, whole_vars};
use crate::spelling::{count_word, first_of, fraction_word, value_word};
use crate::words::{behind, cut_word, is_alone, next_word};
use qm_frac::Frac;
use qm_io::List;
use qm_model::{Player, Problem, Range, is_for_all};
use qm_text::read_whole;
use qm_trees::{Combo, Entry};
use std::alloc::Global;

/// How a game ends, as the first line says.
#[derive(Clone, Copy, Debug, PartialEq, Eq)]
pub enum Claim {
    /// With this value, in the sense of the file.
    Optimal(Frac),
    Infeasible,
    NoPlay,
}

/// A line of an empty tree.
#[derive(Debug, Drop)]
pub enum EmptySaid {
    Split { var: u32, count: u32 },
    Close(Combo),
}

/// A line of a refutation.
#[derive(Debug, Drop)]
pub enum RefuteSaid {
    Over(u32),
    Pick { value: i64, completion: List<i64> },
    Close(Combo),
}

// ---- words

/// The only word, as a value.
#[tactic(auto, using(crate::proofs::WordCuts::one_end, crate::proofs::WordCuts::one_more))]
fn one_value(rest: &[u8]) -> Result<i64, Misread>
    ensures { result ≡ one value_word (words_behind rest.now) }
{
    match next_word(rest) {
        Some((word, more)) => {
            if more.is_empty() {
                value_word(word)
            } else {
                Err(Misread::Text)
            }
        }
        None => Err(Misread::Text),
    }
}

/// The only word, as a count.
#[tactic(auto, using(crate::proofs::WordCuts::one_end, crate::proofs::WordCuts::one_more))]
fn one_count(rest: &[u8]) -> Result<u32, Misread>
    ensures { result ≡ one count_word (words_behind rest.now) }
{
    match next_word(rest) {
        Some((word, more)) => {
            if more.is_empty() {
                count_word(word)
            } else {
                Err(Misread::Text)
            }
        }
        None => Err(Misread::Text),
    }
}

/// The only word, as a fraction.
#[tactic(auto, using(crate::proofs::WordCuts::one_end, crate::proofs::WordCuts::one_more))]
fn one_fraction(rest: &[u8]) -> Result<Frac, Misread>
    ensures { result ≡ one fraction_word (words_behind rest.now) }
{
    match next_word(rest) {
        Some((word, more)) => {
            if more.is_empty() {
                fraction_word(word)
            } else {
                Err(Misread::Text)
            }
        }
        None => Err(Misread::Text),
    }
}

// ---- lines

/// A line of this kind and a value.
pub fn value_said(kind: &[u8], line: &[u8]) -> Result<i64, Misread>
    ensures { result ≡ said_behind (kind.now ∷ []) (one value_word) (words_of line.now) }
{
    match behind(kind, line) {
        Some(rest) => one_value(rest),
        None => Err(Misread::Text),
    }
}

/// A line of this kind and a count.
pub fn count_said(kind: &[u8], line: &[u8]) -> Result<u32, Misread>
    ensures { result ≡ said_behind (kind.now ∷ []) (one count_word) (words_of line.now) }
{
    match behind(kind, line) {
        Some(rest) => one_count(rest),
        None => Err(Misread::Text),
    }
}

/// A line of this kind and a fraction.
fn fraction_said(kind: &[u8], line: &[u8]) -> Result<Frac, Misread>
    ensures { result ≡ said_behind (kind.now ∷ []) (one fraction_word) (words_of line.now) }
{
    match behind(kind, line) {
        Some(rest) => one_fraction(rest),
        None => Err(Misread::Text),
    }
}

/// A line of this kind and so many words.
pub fn values_said<T: Spoken + Drop>(
    alloc: Global,
    kind: &[u8],
    count: usize,
    line: &[u8],
) -> Result<List<T>, Unread>
    ensures { Gives result (said_behind (kind.now ∷ []) (each_of T.word_says count) (words_of line.now)) }
{
    match behind(kind, line) {
        Some(rest) => each_of(alloc, count, rest),
        None => Err(Unread::Misread(Misread::Text)),
    }
}

/// A first line.
pub fn claim_said(line: &[u8]) -> Result<Claim, Misread>
    ensures { said_as claim_node result ≡ claim_said (words_of line.now) }
{
    if is_alone(b"infeasible", line) {
        return Ok(Claim::Infeasible);
    }
    if is_alone(b"empty", line) {
        return Ok(Claim::NoPlay);
    }
    match fraction_said(b"optimal", line) {
        Ok(value) => Ok(Claim::Optimal(value)),
        Err(fault) => Err(fault),
    }
}

/// A range, if both its ends say something.
fn range_of(low: Result<i64, Misread>, high: Result<i64, Misread>) -> Result<Range, Misread>
    ensures { result ≡ with_both range_of low high }
{
    match (low, high) {
        (Ok(low), Ok(high)) => Ok(Range { low, high }),
        (Ok(_), Err(fault)) => Err(fault),
        (Err(fault), Ok(_)) => Err(fault),
        (Err(first), Err(second)) => Err(first_of(first, second)),
    }
}

/// The only two words, as the ends of a range.
#[tactic(auto, using(crate::proofs::WordCuts::range_end, crate::proofs::WordCuts::range_more))]
fn two_values(rest: &[u8]) -> Result<Range, Misread>
    ensures { result ≡ range_said (words_behind rest.now) }
{
    match next_word(rest) {
        Some((low, more)) => match next_word(more) {
            Some((high, end)) => {
                if end.is_empty() {
                    range_of(value_word(low), value_word(high))
                } else {
                    Err(Misread::Text)
                }
            }
            None => Err(Misread::Text),
        },
        None => Err(Misread::Text),
    }
}

/// A line of a range.
pub fn range_said(line: &[u8]) -> Result<Range, Misread>
    ensures { result ≡ said_behind (codes "range" ∷ []) range_said (words_of line.now) }
{
    match behind(b"range", line) {
        Some(rest) => two_values(rest),
        None => Err(Misread::Text),
    }
}

// ---- empty trees

/// The position of a universal variable, counted from 0, which the word names by its number from 1.
fn position_said(problem: &Problem, least: usize, word: &[u8]) -> Result<u32, Misread>
    requires { problem.now.wholes ≤ length problem.now.vars }
    ensures { result ≡ position_said problem.now least word.now }
{
    // that it has 32 bits
    let _wholes = problem.wholes;
    match read_whole(word) {
        Ok(n) => position_of(problem, least, n),
        Err(_) => Err(Misread::Text),
    }
}

/// The position that a number from 1 names.
fn position_of(problem: &Problem, least: usize, n: i64) -> Result<u32, Misread>
    requires { problem.now.wholes ≤ length problem.now.vars }
    ensures { result ≡ position_from problem.now least (Some n) }
{
    if n < 1 || n > i64::from(problem.wholes) {
        return Err(Misread::Text);
    }
    let var = (n - 1) as u32;
    let vars = whole_vars(problem);
    if is_for_all(&vars[var as usize]) && least <= var as usize {
        Ok(var)
    } else {
        Err(Misread::Text)
    }
}

/// A split, if both its words say something.
fn split_of(var: Result<u32, Misread>, count: Result<u32, Misread>) -> Result<EmptySaid, Misread>
    ensures { said_as empty_node result ≡ with_both Split var count }
{
    match (var, count) {
        (Ok(var), Ok(count)) => Ok(EmptySaid::Split { var, count }),
        (Ok(_), Err(fault)) => Err(fault),
        (Err(fault), Ok(_)) => Err(fault),
        (Err(first), Err(second)) => Err(first_of(first, second)),
    }
}

/// The only two words, as a position and a count.
#[tactic(auto, using(crate::proofs::WordCuts::split_end, crate::proofs::WordCuts::split_more))]
fn split_words(problem: &Problem, least: usize, rest: &[u8]) -> Result<EmptySaid, Misread>
    requires { problem.now.wholes ≤ length problem.now.vars }
    ensures { said_as empty_node result ≡ split_said problem.now least (words_behind rest.now) }
{
    match next_word(rest) {
        Some((var, more)) => match next_word(more) {
            Some((count, end)) => {
                if end.is_empty() {
                    split_of(position_said(problem, least, var), count_word(count))
                } else {
                    Err(Misread::Text)
                }
            }
            None => Err(Misread::Text),
        },
        None => Err(Misread::Text),
    }
}

/// A line of a split.
fn split_said(problem: &Problem, least: usize, line: &[u8]) -> Result<EmptySaid, Misread>
    requires { problem.now.wholes ≤ length problem.now.vars }
    ensures { said_as empty_node result ≡ said_behind (codes "split" ∷ []) (split_said problem.now least) (words_of line.now) }
{
    match behind(b"split", line) {
        Some(rest) => split_words(problem, least, rest),
        None => Err(Misread::Text),
    }
}

/// Entries in the order of their rows.
fn entries_said(alloc: Global, objective: bool, rest: &[u8]) -> Result<Combo, Unread>
    ensures { Gives result (with_entries objective (words_behind rest.now)) }
{
    if !are_in_order(rest) {
        return Err(Unread::Misread(Misread::Text));
    }
    let entries: Result<List<Entry>, Unread> = each(alloc, rest);
    match entries {
        Ok(entries) => Ok(Combo::of(objective, entries)),
        Err(fault) => Err(fault),
    }
}

/// Whether the line is of this kind.
fn is_kind(kind: &[u8], line: &[u8]) -> bool
    ensures { result ≡ is_kind kind.now (words_of line.now) }
{
    cut_word(line).0 == kind
}

/// A line of entries.
fn plain_close_said(alloc: Global, line: &[u8]) -> Result<Combo, Unread>
    ensures { Gives result (said_behind (codes "close" ∷ []) (with_entries false) (words_of line.now)) }
{
    match behind(b"close", line) {
        Some(rest) => entries_said(alloc, false, rest),
        None => Err(Unread::Misread(Misread::Text)),
    }
}

/// A line of an empty tree that may split variables from this position on.
pub fn empty_said(
    alloc: Global,
    problem: &Problem,
    least: usize,
    line: &[u8],
) -> Result<EmptySaid, Unread>
    requires { problem.now.wholes ≤ length problem.now.vars }
    ensures { GivesNode empty_node result (empty_said problem.now least (words_of line.now)) }
{
    if is_kind(b"close", line) {
        match plain_close_said(alloc, line) {
            Ok(combo) => Ok(EmptySaid::Close(combo)),
            Err(fault) => Err(fault),
        }
    } else {
        match split_said(problem, least, line) {
            Ok(said) => Ok(said),
            Err(fault) => Err(Unread::Misread(fault)),
        }
    }
}

// ---- refutations

/// A combination: `o` where the objective is in, and entries.
fn combination_said(alloc: Global, rest: &[u8]) -> Result<Combo, Unread>
    ensures { Gives result (combination_said (words_behind rest.now)) }
{
    match next_word(rest) {
        Some((word, more)) => {
            if word == b"o".as_slice() {
                entries_said(alloc, true, more)
            } else {
                entries_said(alloc, false, rest)
            }
        }
        None => entries_said(alloc, false, rest),
    }
}

/// A line of a combination.
fn close_said(alloc: Global, line: &[u8]) -> Result<Combo, Unread>
    ensures { Gives result (said_behind (codes "close" ∷ []) combination_said (words_of line.now)) }
{
    match behind(b"close", line) {
        Some(rest) => combination_said(alloc, rest),
        None => Err(Unread::Misread(Misread::Text)),
    }
}

/// A pick, if all its words say something.
fn pick_of(
    value: Result<i64, Misread>,
    completion: Result<List<i64>, Unread>,
) -> Result<RefuteSaid, Unread>
    ensures { PicksOf value completion result }
{
    match (value, completion) {
        (Ok(value), Ok(completion)) => Ok(RefuteSaid::Pick { value, completion }),
        (Ok(_), Err(fault)) => Err(fault),
        (Err(fault), Ok(_)) => Err(Unread::Misread(fault)),
        (Err(_), Err(Unread::Memory)) => Err(Unread::Memory),
        (Err(first), Err(Unread::Misread(second))) => Err(Unread::Misread(first_of(first, second))),
    }
}

/// A value, and so many others.
fn pick_words(alloc: Global, count: usize, rest: &[u8]) -> Result<RefuteSaid, Unread>
    ensures { GivesNode refute_node result (pick_said count (words_behind rest.now)) }
{
    match next_word(rest) {
        Some((value, more)) => pick_of(value_word(value), each_of(alloc, count, more)),
        None => Err(Unread::Misread(Misread::Text)),
    }
}

/// A line of a pick.
fn pick_said(alloc: Global, count: usize, line: &[u8]) -> Result<RefuteSaid, Unread>
    ensures { GivesNode refute_node result (said_behind (codes "pick" ∷ []) (pick_said count) (words_of line.now)) }
{
    match behind(b"pick", line) {
        Some(rest) => pick_words(alloc, count, rest),
        None => Err(Unread::Misread(Misread::Text)),
    }
}

/// A line of a refutation where so many variables are set, and this player is next.
fn move_said(
    alloc: Global,
    problem: &Problem,
    depth: usize,
    player: Player,
    line: &[u8],
) -> Result<RefuteSaid, Unread>
    requires wholes { problem.now.wholes ≤ length problem.now.vars }
    requires inside { depth + 1 ≤ length (whole_vars problem.now) }
    ensures { GivesNode refute_node result (move_said first_style problem.now depth player (words_of line.now)) }
{
    if is_kind(b"over", line) {
        return match count_said(b"over", line) {
            Ok(count) => Ok(RefuteSaid::Over(count)),
            Err(fault) => Err(Unread::Misread(fault)),
        };
    }
    match player {
        Player::Exists => Err(Unread::Misread(Misread::Text)),
        Player::All => {
            let count = universal_count(later(whole_vars(problem), depth + 1));
            pick_said(alloc, count, line)
        }
    }
}

/// A line of a refutation where so many variables are set.
pub fn refute_said(
    alloc: Global,
    problem: &Problem,
    depth: usize,
    line: &[u8],
) -> Result<RefuteSaid, Unread>
    requires { problem.now.wholes ≤ length problem.now.vars }
    ensures { GivesNode refute_node result (refute_said first_style problem.now depth (words_of line.now)) }
{
    if is_kind(b"close", line) {
        return match close_said(alloc, line) {
            Ok(combo) => Ok(RefuteSaid::Close(combo)),
            Err(fault) => Err(fault),
        };
    }
    match player_at(problem, depth) {
        None => Err(Unread::Misread(Misread::Text)),
        Some(player) => move_said(alloc, problem, depth, player, line),
    }
}
