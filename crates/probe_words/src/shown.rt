use qm_frac::{Frac, Leaves, Op};
use std::alloc::{AllocError, Global};
use std::fmt;

// A fraction as it is printed: `A`, or `A/B` where B isn't 1.
#[derive(Clone, Copy)]
struct Shown {
    value: Frac,
}

impl fmt::Display for Shown {
    fn fmt<W: fmt::Write>(&self, f: &mut fmt::Formatter<W>) -> fmt::Result {
        let num = self.value.num();
        let den = self.value.den();
        if den == 1 {
            write!(f, "{num}")
        } else {
            write!(f, "{num}/{den}")
        }
    }
}

/// A fraction as it is printed.
pub fn fraction_text(alloc: Global, value: Frac) -> Result<String, AllocError> {
    let value = Shown { value };
    format!(in alloc; "{value}")
}

/// The operation that leaves, and its operands.
pub fn leaves_text(alloc: Global, leaves: Leaves) -> Result<String, AllocError> {
    let word = op_word(leaves.op);
    let left = Shown { value: leaves.left };
    let right = Shown {
        value: leaves.right,
    };
    format!(in alloc; "{word} {left} {right}")
}

fn op_word(op: Op) -> &'static str {
    match op {
        Op::Add => "add",
        Op::Sub => "sub",
        Op::Mul => "mul",
        Op::Div => "div",
    }
}

/// What the test of a tree answers.
pub fn test_line(alloc: Global, passes: Result<bool, Leaves>) -> Result<String, AllocError> {
    match passes {
        Ok(true) => String::from_str(alloc, "passes"),
        Ok(false) => String::from_str(alloc, "fails"),
        Err(leaves) => leaves_line(alloc, leaves),
    }
}

/// The operation that leaves, as an answer.
pub fn leaves_line(alloc: Global, leaves: Leaves) -> Result<String, AllocError> {
    let operation = leaves_text(alloc, leaves)?;
    format!(in alloc; "leaves {operation}")
}
