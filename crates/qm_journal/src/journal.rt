ghost use Rattle.std.specs.Prelude.{◌≡◌, ◌↔◌, ◌≤◌, ◌∷◌, ◌++◌, [], suc, length, Err, IsTrue, IfOk, OnOk, OnErr};
ghost use Rattle.qm_journal.specs.declared.journal.JournalFault.TheVariants as fault;

use crate::{JEntry, JKind};
use qm_io::{List, Memory};
use std::alloc::Global;
use std::marker::Model;

/// Why nothing is entered.
#[derive(Clone, Copy, Debug, PartialEq, Eq)]
pub enum JournalFault {
    /// There are as many entries as the limit.
    Spent,
    /// Memory ran out.
    Memory,
}

impl From<Memory> for JournalFault {
    ghost from_gives = { λ _ e. e ≡ fault.Memory };

    fn from(_: Memory) -> Self {
        JournalFault::Memory
    }
}

/// The entries of a search in order, at most as many as the limit. They are numbered from 1.
#[derive(Debug, Drop)]
pub struct Journal {
    limit: u64,
    entries: List<JEntry>,
}

impl Model for Journal {
    ghost use Rattle.std.specs.Prelude.{◌≤◌, length};
    ghost use Rattle.qm_journal.specs.Contents.{Contents};

    ghost Value = { Contents };

    ghost view = { λ j. record { limit = j.limit; entries = j.entries } };

    ghost invariant = { λ j. (1 ≤ j.limit) × (j.limit ≤ 50000000) × (length j.entries ≤ j.limit) };
}

impl Journal {
    /// A journal without entries, for at most `limit` of them, from 1 to 50,000,000. It takes no memory yet.
    pub fn new(alloc: Global, limit: u64) -> Journal
        requires some { 1 ≤ limit }
        requires few { limit ≤ 50000000 }
        ensures { result ≡ record { limit = limit; entries = [] } }
    {
        Journal {
            limit,
            entries: List::new(alloc),
        }
    }

    /// How many entries there may be.
    pub fn limit(&self) -> u64
        ensures limit { result ≡ self.now.limit }
        ensures some { 1 ≤ self.now.limit }
        ensures few { self.now.limit ≤ 50000000 }
    {
        self.limit
    }

    /// The entries in order: the first has the number 1.
    pub fn entries(&self) -> &[JEntry]
        ensures entries { result.now ≡ self.now.entries }
        ensures within { length self.now.entries ≤ self.now.limit }
    {
        self.entries.as_slice()
    }

    /// Whether there are as many entries as the limit.
    fn is_full(&self) -> bool
        ensures { IsTrue result ↔ (length self.now.entries ≡ self.now.limit) }
    {
        self.entries.len() as u64 == self.limit
    }

    /// Puts an entry at the end, and tells its number. `Spent` exactly where there are as many entries as the limit, also
    /// where there is no memory; `Memory`, where there is none for the entry. Then the journal stays as it was.
    pub fn enter(&mut self, kind: JKind, parent: u32, value: i64) -> Result<u32, JournalFault>
        ensures spent { (result ≡ Err fault.Spent) ↔ (length self.old.entries ≡ self.old.limit) }
        ensures number { IfOk result (λ n. n ≡ suc (length self.old.entries)) }
        ensures entered { OnOk result (self.new ≡ record { limit = self.old.limit; entries = self.old.entries ++ record { kind = kind; parent = parent; value = value } ∷ [] }) }
        ensures same { OnErr result (self.new ≡ self.old) }
    {
        if self.is_full() {
            return Err(JournalFault::Spent);
        }
        self.entries.push(JEntry {
            kind,
            parent,
            value,
        })?;
        Ok(self.entries.len() as u32)
    }
}
