use probe_words::{bytes_of, fraction_text};
use qm_frac::Frac;
use qm_text::{NumberFault, read_decimal, read_frac, read_whole};
use std::alloc::{AllocError, Global};

/// Which numbers a word is read as.
#[derive(Clone, Copy)]
pub enum Reading {
    Decimal,
    Fraction,
    Whole,
}

/// The number of a word, or why it has none.
pub fn number_of(alloc: Global, reading: Reading, written: &str) -> Result<String, AllocError> {
    match bytes_of(alloc, written)? {
        Some(word) => read(alloc, reading, &word),
        None => String::from_str(alloc, "?"),
    }
}

fn read(alloc: Global, reading: Reading, word: &[u8]) -> Result<String, AllocError> {
    match reading {
        Reading::Decimal => fraction_or_fault(alloc, read_decimal(word)),
        Reading::Fraction => fraction_or_fault(alloc, read_frac(word)),
        Reading::Whole => match read_whole(word) {
            Ok(n) => format!(in alloc; "{n}"),
            Err(fault) => fault_text(alloc, fault),
        },
    }
}

fn fraction_or_fault(
    alloc: Global,
    answer: Result<Frac, NumberFault>,
) -> Result<String, AllocError> {
    match answer {
        Ok(value) => fraction_text(alloc, value),
        Err(fault) => fault_text(alloc, fault),
    }
}

fn fault_text(alloc: Global, fault: NumberFault) -> Result<String, AllocError> {
    match fault {
        NumberFault::NotNumber => String::from_str(alloc, "not a number"),
        NumberFault::Leaves => String::from_str(alloc, "leaves"),
    }
}
