use qm_io::Memory;
use std::alloc::{AllocError, AllocFailed, Global};

/// Why words name nothing that a call takes.
#[derive(Clone, Copy, Debug, PartialEq, Eq)]
pub enum NoAnswer {
    /// A word is spelled wrong.
    Spelling,
    /// There is not one range or value for each variable.
    Count,
    /// A range or a value isn't inside the variable's bounds.
    Outside,
    /// The terms of a cut aren't in order, or it is too wide.
    Cut,
    /// A row isn't there, a multiplier isn't above 0, or entries aren't in order.
    Entry,
    Memory,
}

impl NoAnswer {
    /// The line that says so.
    pub fn line(self) -> &'static str {
        match self {
            NoAnswer::Spelling => "?",
            NoAnswer::Count => "box count",
            NoAnswer::Outside => "box outside",
            NoAnswer::Cut => "no cut",
            NoAnswer::Entry => "no entry",
            NoAnswer::Memory => "memory",
        }
    }
}

impl From<Memory> for NoAnswer {
    fn from(_: Memory) -> Self {
        NoAnswer::Memory
    }
}

impl From<AllocError> for NoAnswer {
    fn from(_: AllocError) -> Self {
        NoAnswer::Memory
    }
}

impl<T: Drop> From<AllocFailed<T>> for NoAnswer {
    fn from(_: AllocFailed<T>) -> Self {
        NoAnswer::Memory
    }
}

/// The answer, or the line that says why there is none.
pub fn line_of(alloc: Global, answer: Result<String, NoAnswer>) -> Result<String, AllocError> {
    match answer {
        Ok(line) => Ok(line),
        Err(why) => String::from_str(alloc, why.line()),
    }
}
