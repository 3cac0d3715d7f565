use crate::made::Made;
use qm_io::Memory;
use std::alloc::{AllocError, Global};

/// How many whole variables a problem of one leaf has.
const WHOLES: u32 = 20;

/// How many terms of each row of a made problem are kept: all, or four.
#[derive(Clone, Copy)]
pub enum Density {
    Dense,
    Sparse,
}

/// The text of the made problem, whose rows keep so many of their terms.
pub fn text_of(alloc: Global, density: Density, made: Made) -> Result<String, Memory> {
    let text = made.text(alloc)?;
    match density {
        Density::Dense => Ok(text),
        Density::Sparse => Ok(thinned(alloc, text.as_str())?),
    }
}

fn thinned(alloc: Global, text: &str) -> Result<String, AllocError> {
    let mut out = String::new(alloc);
    for line in text.split('\n') {
        match line.split_once(" <= ") {
            Some((terms, _)) => push_thinned(alloc, &mut out, terms)?,
            None => out.push_str(line)?,
        }
        out.push_str("\n")?;
    }
    Ok(out)
}

// Four of a row's terms, and on the right half of what their coefficients come to.
fn push_thinned(alloc: Global, out: &mut String, terms: &str) -> Result<(), AllocError> {
    let step = (terms.split(" + ").count() / 4).max(1);
    let mut sum: u32 = 0;
    for (place, term) in terms.split(" + ").enumerate() {
        if place % step == 0 && place / step < 4 {
            out.push_str(" + ")?;
            out.push_str(term)?;
            sum = sum.wrapping_add(coefficient(term));
        }
    }
    let right = sum / 2;
    out.push_str(format!(in alloc; " <= {right}")?.as_str())
}

fn coefficient(term: &str) -> u32 {
    let (coef, _) = term.split_once(' ').unwrap_or((term, ""));
    coef.parse::<u32>().unwrap_or(0)
}

/// The text of the made problem, but that of its binaries only the first so many are whole, three at least. Every third of
/// these is universal, and at most half of the universal ones are 1.
pub fn continuous_text_of(alloc: Global, made: Made, wholes: u32) -> Result<String, Memory> {
    let text = made.text(alloc)?;
    let mut out = String::from_str(alloc, without_lists(text.as_str()))?;
    push_budget(alloc, &mut out, wholes / 3)?;
    push_bounds(alloc, &mut out, wholes, made.size())?;
    out.push_str("BINARIES")?;
    push_names(alloc, &mut out, "x", wholes, 1)?;
    out.push_str("\nALL")?;
    push_names(alloc, &mut out, "x", wholes / 3, 3)?;
    out.push_str("\nORDER")?;
    push_names(alloc, &mut out, "x", made.size(), 1)?;
    out.push_str("\nEND\n")?;
    Ok(out)
}

/// The text of the made problem, whose rows keep so many of their terms, but that its variables are continuous, from 0 to 10,
/// behind twenty whole ones that can only be 0 and are in no row.
pub fn mixed_text_of(alloc: Global, density: Density, made: Made) -> Result<String, Memory> {
    let text = text_of(alloc, density, made)?;
    let mut out = String::from_str(alloc, without_lists(text.as_str()))?;
    out.push_str("BOUNDS\n")?;
    push_ends(alloc, &mut out, "w", WHOLES, 0)?;
    push_ends(alloc, &mut out, "x", made.size(), 10)?;
    out.push_str("GENERALS")?;
    push_names(alloc, &mut out, "w", WHOLES, 1)?;
    out.push_str("\nORDER")?;
    push_names(alloc, &mut out, "w", WHOLES, 1)?;
    push_names(alloc, &mut out, "x", made.size(), 1)?;
    out.push_str("\nEND\n")?;
    Ok(out)
}

// The part of a made text before its uncertainty row and its lists.
fn without_lists(text: &str) -> &str {
    let (head, _) = text.split_once("BINARIES").unwrap_or((text, ""));
    let (rows, _) = head.split_once("UNCERTAINTY").unwrap_or((head, ""));
    rows
}

// At most half of so many universal variables are 1.
fn push_budget(alloc: Global, out: &mut String, universals: u32) -> Result<(), AllocError> {
    out.push_str("UNCERTAINTY SUBJECT TO\n")?;
    for number in 1..=universals {
        let variable = number.wrapping_mul(3);
        out.push_str(format!(in alloc; " + x{variable}")?.as_str())?;
    }
    let right = universals.wrapping_add(1) / 2;
    out.push_str(format!(in alloc; " <= {right}\n")?.as_str())
}

// The bounds of the variables behind so many, none where there are no more.
fn push_bounds(alloc: Global, out: &mut String, wholes: u32, size: u32) -> Result<(), AllocError> {
    if wholes < size {
        out.push_str("BOUNDS\n")?;
    }
    for number in wholes..size {
        let variable = number.wrapping_add(1);
        out.push_str(format!(in alloc; "x{variable} <= 1\n")?.as_str())?;
    }
    Ok(())
}

// The same high end for so many variables.
fn push_ends(
    alloc: Global,
    out: &mut String,
    letter: &str,
    count: u32,
    end: u32,
) -> Result<(), AllocError> {
    for number in 1..=count {
        out.push_str(format!(in alloc; "{letter}{number} <= {end}\n")?.as_str())?;
    }
    Ok(())
}

// The names of so many variables, each so many after the one before.
fn push_names(
    alloc: Global,
    out: &mut String,
    letter: &str,
    count: u32,
    step: u32,
) -> Result<(), AllocError> {
    for number in 1..=count {
        let variable = number.wrapping_mul(step);
        out.push_str(format!(in alloc; " {letter}{variable}")?.as_str())?;
    }
    Ok(())
}
