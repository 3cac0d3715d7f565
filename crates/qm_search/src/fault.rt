use qm_certfile::Certificate;
use qm_io::{List, Memory};
use qm_journal::Journal;
use qm_simplex::RunLeaves;
use thiserror::Error;

/// A game's certificate, and the journal of the search that made it.
#[derive(Debug, Drop)]
pub struct Solved {
    pub certificate: Certificate,
    pub journal: Journal,
}

/// A complete prefix whose leaf run leaves the range, with the operation and the pivots until then.
#[derive(Debug, Drop)]
pub struct Leave {
    pub prefix: List<i64>,
    pub run: RunLeaves,
}

/// Why there is no certificate.
#[derive(Debug, Drop, Error)]
pub enum SearchFault {
    /// The journal has as many entries as its limit.
    #[error("the budget is spent")]
    Spent(Journal),
    /// An operation of the leaf run of this prefix leaves the range.
    #[error("an operation of a leaf's run leaves the range")]
    Leave(Leave),
    #[error("out of memory")]
    Memory,
}

impl From<Memory> for SearchFault {
    ghost use Rattle.std.specs.Prelude.{◌≡◌};
    ghost use Rattle.qm_search.specs.declared.fault.SearchFault.TheVariants as fault;

    ghost from_gives = { λ _ e. e ≡ fault.Memory };

    fn from(_: Memory) -> Self {
        SearchFault::Memory
    }
}
