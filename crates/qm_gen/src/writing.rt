ghost use Rattle.std.specs.Prelude.{◌≡◌, ◌++◌, ◌∷◌, [], map, OnOk};
ghost use Rattle.std.specs.List.{flat_map};
ghost use Rattle.qm_small.specs.Lines.{lines_text, names_lines, optional_lines, spaced};
ghost use Rattle.qm_gen.specs.Generated.{name_of, rows_of};
ghost use Rattle.qm_gen.specs.WritingSteps.{more_text, rows_text, term_text, terms_text};

use crate::term::Term;
use qm_io::{List, Memory};
use qm_text::write_count;

/// Appends the terms, with signs between.
pub(crate) fn write_terms(terms: &[Term], out: &mut List<u8>) -> Result<(), Memory>
    ensures { OnOk result (out.new ≡ out.old ++ terms_text terms.now) }
{
    let Some((first, others)) = terms.split_first() else {
        return Ok(());
    };
    write_term(first, out)?;
    write_more_terms(others, out)
}

// Terms with a sign before each.
fn write_more_terms(terms: &[Term], out: &mut List<u8>) -> Result<(), Memory>
    ensures { OnOk result (out.new ≡ out.old ++ flat_map more_text terms.now) }
{
    for term in terms {
        out.append(b" + ")?;
        write_term(term, out)?;
    }
    Ok(())
}

// A factor is written also where it is 1.
fn write_term(term: &Term, out: &mut List<u8>) -> Result<(), Memory>
    ensures { OnOk result (out.new ≡ out.old ++ term_text term.now) }
{
    write_count(term.factor as usize, out)?;
    out.push(b' ')?;
    write_name(term.variable, out)
}

/// Appends the row; nothing where there are no terms.
pub(crate) fn write_row(terms: &[Term], right: u32, out: &mut List<u8>) -> Result<(), Memory>
    ensures { OnOk result (out.new ≡ out.old ++ rows_text (rows_of terms.now right)) }
{
    if terms.is_empty() {
        return Ok(());
    }
    write_terms(terms, out)?;
    out.append(b" <= ")?;
    write_count(right as usize, out)?;
    out.push(b'\n')
}

/// Appends a heading and the names of the variables on the line below.
pub(crate) fn write_names(
    heading: &[u8],
    variables: &[u32],
    out: &mut List<u8>,
) -> Result<(), Memory>
    ensures { OnOk result (out.new ≡ out.old ++ lines_text (names_lines heading.now (map name_of variables.now))) }
{
    out.append(heading)?;
    out.push(b'\n')?;
    write_line(variables, out)
}

/// The same, where there are variables.
pub(crate) fn write_some_names(
    heading: &[u8],
    variables: &[u32],
    out: &mut List<u8>,
) -> Result<(), Memory>
    ensures { OnOk result (out.new ≡ out.old ++ lines_text (optional_lines heading.now (map name_of variables.now))) }
{
    if variables.is_empty() {
        return Ok(());
    }
    write_names(heading, variables, out)
}

// A line of names.
fn write_line(variables: &[u32], out: &mut List<u8>) -> Result<(), Memory>
    ensures { OnOk result (out.new ≡ out.old ++ (spaced (map name_of variables.now) ++ 10 ∷ [])) }
{
    write_spaced(variables, out)?;
    out.push(b'\n')
}

// Names with one space between.
fn write_spaced(variables: &[u32], out: &mut List<u8>) -> Result<(), Memory>
    ensures { OnOk result (out.new ≡ out.old ++ spaced (map name_of variables.now)) }
{
    let Some((first, others)) = variables.split_first() else {
        return Ok(());
    };
    write_name(*first, out)?;
    write_more_names(others, out)
}

// Names with a space before each.
fn write_more_names(variables: &[u32], out: &mut List<u8>) -> Result<(), Memory>
    ensures { OnOk result (out.new ≡ out.old ++ flat_map (λ variable. 32 ∷ name_of variable) variables.now) }
{
    for variable in variables {
        out.push(b' ')?;
        write_name(*variable, out)?;
    }
    Ok(())
}

fn write_name(variable: u32, out: &mut List<u8>) -> Result<(), Memory>
    ensures { OnOk result (out.new ≡ out.old ++ name_of variable) }
{
    out.push(b'x')?;
    write_count(variable as usize, out)
}
