use crate::texts::MOST;
use qm_lex::tokens;
use qm_parse::parse;
use std::alloc::{AllocError, Global};

/// How many variables there are.
const VARIABLES: u32 = 1000;

/// How many terms a row has.
const TERMS: u32 = 100;

/// How many rows are read of a text with so many thousand terms of twenty bytes; none where it is too long, or isn't
/// read.
pub fn rows_in(alloc: Global, thousands: u32) -> Result<usize, AllocError> {
    let text = text_of(alloc, thousands)?;
    if text.len() > MOST {
        return Ok(0);
    }
    match tokens(alloc, &text) {
        Ok(tokens) => match parse(alloc, &text, tokens.as_slice()) {
            Ok(ast) => Ok(ast.rows.len()),
            Err(_) => Ok(0),
        },
        Err(_) => Ok(0),
    }
}

fn text_of(alloc: Global, thousands: u32) -> Result<Vec<u8>, AllocError> {
    let mut text = Vec::new(alloc);
    text.extend_from_slice(b"MAXIMIZE\n x0000\nSUBJECT TO\n")?;
    for thousand in 0..thousands {
        for row in 0..10 {
            push_row(&mut text, thousand.wrapping_mul(10).wrapping_add(row))?;
        }
    }
    text.extend_from_slice(b"BOUNDS\n")?;
    push_names(&mut text, b" <= 7\n")?;
    text.extend_from_slice(b"GENERALS\n")?;
    push_names(&mut text, b"\n")?;
    text.extend_from_slice(b"ORDER\n")?;
    push_names(&mut text, b"\n")?;
    text.extend_from_slice(b"END\n")?;
    Ok(text)
}

fn push_row(text: &mut Vec<u8>, row: u32) -> Result<(), AllocError> {
    for term in 0..TERMS {
        let n = row.wrapping_mul(TERMS).wrapping_add(term);
        text.extend_from_slice(b" + 1234")?;
        push_digits(text, n)?;
        text.extend_from_slice(b".25")?;
        push_name(text, n.wrapping_mul(17) % VARIABLES)?;
    }
    text.extend_from_slice(b" <= 12345\n")
}

fn push_names(text: &mut Vec<u8>, behind: &[u8]) -> Result<(), AllocError> {
    for variable in 0..VARIABLES {
        push_name(text, variable)?;
        text.extend_from_slice(behind)?;
    }
    Ok(())
}

// A blank, and the name of the variable of this number.
fn push_name(text: &mut Vec<u8>, variable: u32) -> Result<(), AllocError> {
    text.extend_from_slice(b" x")?;
    push_digits(text, variable)
}

// The last four digits of a number.
fn push_digits(text: &mut Vec<u8>, n: u32) -> Result<(), AllocError> {
    for digits in [n / 1000, n / 100, n / 10, n] {
        text.push(b'0' + (digits % 10) as u8)?;
    }
    Ok(())
}
