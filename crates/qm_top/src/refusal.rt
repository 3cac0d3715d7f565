ghost use Rattle.std.specs.Prelude.{◌≡◌, ◌∷◌, [], codes, IfOk};
ghost use Rattle.qm_certfile.specs.Lines.{line_text};
ghost use Rattle.qm_top.specs.FaultLines.{TellsNormal, TellsParse, counted_word, limit_line, text_line, what_word, which_words};
ghost use Rattle.qm_top.specs.Report.{status_of, text_of};

use crate::fault_lines::{
    kind_line, limit_line, many_line, named_line, wide_bound_line, wide_row_line,
};
use crate::report::Report;
use qm_io::{List, Memory};
use qm_normal::{Counted, NormalFault, Which};
use qm_parse::{ParseFault, What};
use std::alloc::Global;

fn what_word(what: What) -> &'static [u8]
    ensures { result.now ≡ what_word what }
{
    match what {
        What::Sense => b"sense",
        What::SubjectTo => b"SUBJECT TO",
        What::To => b"TO",
        What::Term => b"term",
        What::Name => b"name",
        What::Relation => b"relation",
        What::Number => b"number",
        What::LineEnd => b"line end",
        What::Section => b"section",
        What::Order => b"ORDER",
        What::TextEnd => b"text end",
    }
}

/// The line of a fault of the grammar or of the use of names.
pub fn parse_line(alloc: Global, fault: &ParseFault) -> Result<List<u8>, Memory>
    ensures { IfOk result (TellsParse fault.now) }
{
    match fault {
        ParseFault::Expected(at, what) => named_line(alloc, *at, b"expected", what_word(*what)),
        ParseFault::Number(at) => kind_line(alloc, *at, b"number"),
        ParseFault::BothPlayers(name, at) => named_line(alloc, *at, b"both", name.as_slice()),
        ParseFault::Twice(name, at) => named_line(alloc, *at, b"twice", name.as_slice()),
        ParseFault::Unknown(name, at) => named_line(alloc, *at, b"unknown", name.as_slice()),
        ParseFault::Unordered(name, at) => named_line(alloc, *at, b"unordered", name.as_slice()),
        ParseFault::Infinite(name, at) => named_line(alloc, *at, b"infinite", name.as_slice()),
        ParseFault::NoUpper(name, at) => named_line(alloc, *at, b"upper", name.as_slice()),
        ParseFault::Memory => Err(Memory),
    }
}

fn counted_word(counted: Counted) -> &'static [u8]
    ensures { result.now ≡ counted_word counted }
{
    match counted {
        Counted::Variables => b"variables",
        Counted::Rows => b"rows",
        Counted::Terms => b"terms",
    }
}

/// The line of what is too wide.
fn wide_line(alloc: Global, which: &Which) -> Result<List<u8>, Memory>
    ensures { IfOk result (λ line. line ≡ limit_line (codes "wide" ∷ which_words which.now)) }
{
    match which {
        Which::Row(number) => wide_row_line(alloc, b"row", *number),
        Which::Uncertainty(number) => wide_row_line(alloc, b"uncertainty", *number),
        Which::Bound(name) => wide_bound_line(alloc, name.as_slice()),
        Which::Objective => limit_line(alloc, b"wide", b"objective"),
    }
}

/// What is answered about a problem that is out of scope, or beyond a limit.
pub fn normal_report(alloc: Global, fault: &NormalFault) -> Result<Report, Memory>
    ensures { IfOk result (λ report. TellsNormal fault.now (status_of report) (text_of report)) }
{
    match fault {
        NormalFault::ContinuousUniversal(name, at) => {
            Ok(Report::Text(named_line(alloc, *at, b"universal", name.as_slice())?))
        }
        NormalFault::ContinuousEarly(name, at) => {
            Ok(Report::Text(named_line(alloc, *at, b"early", name.as_slice())?))
        }
        NormalFault::ExistsInUncertainty(name, at) => {
            Ok(Report::Text(named_line(alloc, *at, b"uncertain", name.as_slice())?))
        }
        NormalFault::Many(counted, number) => {
            Ok(Report::Limit(many_line(alloc, counted_word(*counted), *number)?))
        }
        NormalFault::Domain(name) => {
            Ok(Report::Limit(limit_line(alloc, b"domain", name.as_slice())?))
        }
        NormalFault::Wide(which) => Ok(Report::Limit(wide_line(alloc, which)?)),
        NormalFault::Memory => Err(Memory),
    }
}
