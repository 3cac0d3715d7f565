use crate::prefixes::with_end;
use qm_io::{List, Memory};
use std::alloc::Global;

/// What an entry of a journal stands for: a prefix, and values of the next universal variables behind it; and the number of
/// the same game entry in a journal beside, 0 for the other kinds.
#[derive(Debug, Drop)]
pub struct Stand {
    number: u32,
    prefix: List<i64>,
    steps: List<i64>,
}

impl Stand {
    /// The empty prefix.
    pub fn start(alloc: Global) -> Stand {
        Stand {
            number: 0,
            prefix: List::new(alloc),
            steps: List::new(alloc),
        }
    }

    pub fn number(&self) -> u32 {
        self.number
    }

    pub fn prefix(&self) -> &[i64] {
        self.prefix.as_slice()
    }

    pub fn steps(&self) -> &[i64] {
        self.steps.as_slice()
    }

    /// The prefix with one value more.
    pub fn with_value(&self, alloc: Global, number: u32, value: i64) -> Result<Stand, Memory> {
        Ok(Stand {
            number,
            prefix: with_end(alloc, self.prefix(), value)?,
            steps: List::new(alloc),
        })
    }

    /// The prefix, and one value more of a universal variable behind it.
    pub fn with_step(&self, alloc: Global, value: i64) -> Result<Stand, Memory> {
        let mut prefix = List::new(alloc);
        prefix.append(self.prefix())?;
        Ok(Stand {
            number: 0,
            prefix,
            steps: with_end(alloc, self.steps(), value)?,
        })
    }
}
