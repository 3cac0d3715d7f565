use crate::certificates::certificate_of;
use crate::forms::normal_of;
use crate::fractions::fraction_of;
use crate::lines::{line_end_of, place_of};
use crate::made::{bytes_made_of, made_of};
use crate::numbers::{Reading, number_of};
use crate::reports::{report_in_pieces, report_of};
use crate::streams::{calls_of, reading_of, writing_of};
use crate::tokens::tokens_of;
use crate::trees::tree_of;
use probe_words::{Stated, game_of};
use std::alloc::{AllocError, Global};

/// The answer to a line, and `?` where the line asks nothing.
pub fn answer(alloc: Global, line: &str) -> Result<String, AllocError> {
    let (word, rest) = line.split_once(' ').unwrap_or((line, ""));
    match word {
        "tokens" => tokens_of(alloc, rest),
        "fault" => fault_of(alloc, rest),
        "tree" => tree_of(alloc, rest),
        "normal" => normal_of(alloc, rest),
        "made" => made_of(alloc, rest),
        "bytes" => bytes_made_of(alloc, rest),
        "certificate" => certificate_of(alloc, rest),
        "report" => report_of(alloc, rest),
        "pieces" => report_in_pieces(alloc, rest),
        "read" => reading_of(alloc, rest),
        "calls" => calls_of(alloc, rest),
        "put" => writing_of(alloc, rest),
        "line" => line_end_of(alloc, rest),
        "place" => place_of(alloc, rest),
        "decimal" => number_of(alloc, Reading::Decimal, rest),
        "fraction" => number_of(alloc, Reading::Fraction, rest),
        "whole" => number_of(alloc, Reading::Whole, rest),
        _ => fraction_of(alloc, line),
    }
}

// `ok` where the text states a game, else the line that refuses it.
fn fault_of(alloc: Global, written: &str) -> Result<String, AllocError> {
    match game_of(alloc, written)? {
        Stated::Game(_) => String::from_str(alloc, "ok"),
        Stated::Nothing(line) => Ok(line),
    }
}
