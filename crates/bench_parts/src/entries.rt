use qm_journal::{JKind, Journal, JournalFault};
use std::alloc::{AllocError, Global};

// The number of the last of so many thousand entries that are put into the longest journal, each below the one before.
// `Spent` beyond fifty millions.
fn entered_in(alloc: Global, thousands: u32) -> Result<u32, JournalFault> {
    let mut journal = Journal::new(alloc, 50_000_000);
    let mut last = 0;
    for _ in 0..thousands {
        for value in 0..1000 {
            last = journal.enter(JKind::Game, last, value)?;
        }
    }
    Ok(last)
}

/// That number.
pub fn entries_line(alloc: Global, thousands: u32) -> Result<String, AllocError> {
    match entered_in(alloc, thousands) {
        Ok(last) => format!(in alloc; "{last}"),
        Err(JournalFault::Spent) => String::from_str(alloc, "spent"),
        Err(JournalFault::Memory) => String::from_str(alloc, "out of memory"),
    }
}
