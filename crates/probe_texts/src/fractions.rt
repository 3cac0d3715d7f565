use crate::question::{Question, over, read_question};
use probe_words::{fraction_text, leaves_text};
use qm_frac::{Frac, Leaves, gcd};
use qm_io::List;
use qm_text::write_frac;
use std::alloc::{AllocError, Global};
use std::cmp::Ordering;

/// The answer to a line about fractions, and `?` where it asks nothing.
pub fn fraction_of(alloc: Global, line: &str) -> Result<String, AllocError> {
    match read_question(line) {
        Some(question) => answer_to(alloc, question),
        None => nothing(alloc),
    }
}

fn answer_to(alloc: Global, question: Question) -> Result<String, AllocError> {
    match question {
        Question::Of(num, den) => fraction_or_none(alloc, num, den),
        Question::Gcd(a, b) => divisor(alloc, gcd(a, b)),
        Question::Floor(a) => number(alloc, a.floor()),
        Question::Ceil(a) => number(alloc, a.ceil()),
        Question::Neg(a) => fraction_text(alloc, a.neg()),
        Question::Write(a) => written(alloc, a),
        Question::Add(a, b) => value_or_leaves(alloc, a.add(b)),
        Question::Sub(a, b) => value_or_leaves(alloc, a.sub(b)),
        Question::Mul(a, b) => value_or_leaves(alloc, a.mul(b)),
        Question::Div(a, b) => divided(alloc, a, b),
        Question::Cmp(a, b) => number(alloc, sign(a.cmp(b))),
    }
}

fn divisor(alloc: Global, n: u128) -> Result<String, AllocError> {
    format!(in alloc; "{n}")
}

// As certificates write it.
fn written(alloc: Global, value: Frac) -> Result<String, AllocError> {
    let mut text = List::new(alloc);
    write_frac(value, &mut text).map_err(|_| AllocError)?;
    String::from_utf8_lossy(alloc, text.as_slice())
}

fn nothing(alloc: Global) -> Result<String, AllocError> {
    String::from_str(alloc, "?")
}

fn number(alloc: Global, n: i128) -> Result<String, AllocError> {
    format!(in alloc; "{n}")
}

fn fraction_or_none(alloc: Global, num: i128, den: i128) -> Result<String, AllocError> {
    if den == 0 {
        return nothing(alloc);
    }
    match over(num, den) {
        Some(value) => fraction_text(alloc, value),
        None => String::from_str(alloc, "none"),
    }
}

fn divided(alloc: Global, a: Frac, b: Frac) -> Result<String, AllocError> {
    if b.num() == 0 {
        return nothing(alloc);
    }
    value_or_leaves(alloc, a.div(b))
}

fn value_or_leaves(alloc: Global, answer: Result<Frac, Leaves>) -> Result<String, AllocError> {
    match answer {
        Ok(value) => fraction_text(alloc, value),
        Err(leaves) => {
            let operation = leaves_text(alloc, leaves)?;
            format!(in alloc; "leaves {operation}")
        }
    }
}

fn sign(order: Ordering) -> i128 {
    match order {
        Ordering::Less => -1,
        Ordering::Equal => 0,
        Ordering::Greater => 1,
    }
}
