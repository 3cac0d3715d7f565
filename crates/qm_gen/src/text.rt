ghost use Rattle.std.specs.Prelude.{◌≡◌, ◌≤◌, ◌<◌, ◌+◌, ◌/◌, ◌^◌, ◌++◌, [], ◌∷◌, codes, length, map, IfOk, OnOk};
ghost use Rattle.qm_small.specs.Lines.{lines_text, row_words, rows_heading, terms_words, uncertain_lines};
ghost use Rattle.qm_small.specs.Small.{IsSmallText};
ghost use Rattle.qm_gen.specs.Draws.{draw, state_behind};
ghost use Rattle.qm_gen.specs.Generated.{drawn_row, drawn_rows, generated_problem, generated_text, objective_terms, rows_of, sum_terms, written_term};
ghost use Rattle.qm_gen.specs.WritingSteps.{lists_of, rows_text};

use crate::draws::Draws;
use crate::lists::{Group, variables};
use crate::terms::{objective_terms, right_side, row_terms, sum_terms};
use crate::writing::{write_names, write_row, write_some_names, write_terms};
use qm_io::{List, Memory};
use std::alloc::Global;

/// The text of the problem that the number decides, of so many variables: all 0 or 1, every third universal. The
/// objective and as many rows as there are variables are drawn, and about half of the universal variables may be 1.
pub fn generate(alloc: Global, number: u32, size: u32) -> Result<List<u8>, Memory>
    requires number { number < 2 ^ 31 }
    requires some { 1 ≤ size }
    requires few { size ≤ 100 }
    ensures text { IfOk result (λ text. text ≡ generated_text number size) }
    ensures small { IfOk result (λ text. IsSmallText text (generated_problem number size)) }
{
    let mut out = List::new(alloc);
    let mut draws = Draws::new(number);
    write_objective(alloc, &mut draws, size, &mut out)?;
    write_rows(alloc, &mut draws, size, &mut out)?;
    let everyone = variables(alloc, Group::Everyone, size)?;
    let existential = variables(alloc, Group::Existential, size)?;
    let universal = variables(alloc, Group::Universal, size)?;
    write_uncertainty(alloc, universal.as_slice(), &mut out)?;
    write_lists(
        everyone.as_slice(),
        existential.as_slice(),
        universal.as_slice(),
        &mut out,
    )?;
    Ok(out)
}

fn write_objective(
    alloc: Global,
    draws: &mut Draws,
    size: u32,
    out: &mut List<u8>,
) -> Result<(), Memory>
    requires { size ≤ 100 }
    ensures text { OnOk result (out.new ≡ out.old ++ lines_text ((codes "MAXIMIZE" ∷ []) ∷ terms_words (map written_term (objective_terms (draw draws.old.state) size)) ∷ [])) }
    ensures state { OnOk result (draws.new.state ≡ state_behind draws.old.state size) }
{
    let terms = objective_terms(alloc, draws, size)?;
    out.append(b"MAXIMIZE\n")?;
    write_terms(terms.as_slice(), out)?;
    out.push(b'\n')
}

fn write_rows(alloc: Global, draws: &mut Draws, size: u32, out: &mut List<u8>) -> Result<(), Memory>
    requires { size ≤ 100 }
    ensures { OnOk result (out.new ≡ out.old ++ lines_text (rows_heading ∷ map row_words (drawn_rows (draw draws.old.state) size size))) }
{
    out.append(b"SUBJECT TO\n")?;
    for _row in 0..size {
        write_drawn_row(alloc, draws, size, out)?;
    }
    Ok(())
}

fn write_drawn_row(
    alloc: Global,
    draws: &mut Draws,
    size: u32,
    out: &mut List<u8>,
) -> Result<(), Memory>
    requires { size ≤ 100 }
    ensures text { OnOk result (out.new ≡ out.old ++ rows_text (drawn_row (draw draws.old.state) size)) }
    ensures state { OnOk result (draws.new.state ≡ state_behind draws.old.state size) }
{
    let terms = row_terms(alloc, draws, size)?;
    let right = right_side(terms.as_slice());
    write_row(terms.as_slice(), right, out)
}

// At most half of the universal variables are 1.
fn write_uncertainty(alloc: Global, universal: &[u32], out: &mut List<u8>) -> Result<(), Memory>
    requires { length universal.now ≤ 100 }
    ensures { OnOk result (out.new ≡ out.old ++ lines_text (uncertain_lines (rows_of (sum_terms universal.now) ((length universal.now + 1) / 2)))) }
{
    if universal.is_empty() {
        return Ok(());
    }
    let terms = sum_terms(alloc, universal)?;
    out.append(b"UNCERTAINTY SUBJECT TO\n")?;
    write_row(terms.as_slice(), (universal.len() as u32 + 1) / 2, out)
}

// The lists of names, and the end.
fn write_lists(
    everyone: &[u32],
    existential: &[u32],
    universal: &[u32],
    out: &mut List<u8>,
) -> Result<(), Memory>
    ensures { OnOk result (out.new ≡ out.old ++ lines_text (lists_of everyone.now existential.now universal.now)) }
{
    write_names(b"BINARIES", everyone, out)?;
    write_some_names(b"EXISTS", existential, out)?;
    write_some_names(b"ALL", universal, out)?;
    write_names(b"ORDER", everyone, out)?;
    out.append(b"END\n")
}
