use qm_io::{List, Memory};
use qm_lex::Place;
use thiserror::Error;

/// What is counted against a limit.
#[derive(Clone, Copy, Debug, PartialEq, Eq)]
pub enum Counted {
    Variables,
    /// Rows and uncertainty rows together.
    Rows,
    /// The terms of these rows together.
    Terms,
}

/// What is too wide for 128 bits.
#[derive(Debug, Drop)]
pub enum Which {
    /// A row, by its number from 0 in its section of the text.
    Row(u32),
    /// An uncertainty row, by its number from 0 in its section of the text.
    Uncertainty(u32),
    /// The row of an exact bound, by the name of its variable.
    Bound(List<u8>),
    Objective,
}

/// Why a syntax tree has no normal form. The faults come in this order.
#[derive(Debug, Drop, Error)]
pub enum NormalFault {
    /// A universal variable is continuous.
    #[error("a universal variable is continuous")]
    ContinuousUniversal(List<u8>, Place),
    /// A continuous variable stands before a universal one.
    #[error("a continuous variable stands before a universal one")]
    ContinuousEarly(List<u8>, Place),
    /// An existential variable stands in an uncertainty row.
    #[error("an existential variable stands in an uncertainty row")]
    ExistsInUncertainty(List<u8>, Place),
    /// There are more variables than 1,000, rows than 2,000, or terms than 200,000: so many.
    #[error("there are too many")]
    Many(Counted, u64),
    /// A variable has a bound beyond 2^50, or it is whole and has more than 1,048,576 values.
    #[error("a domain is too large")]
    Domain(List<u8>),
    /// Repeated terms leave 128 bits, or a least common denominator or a size exceeds 2^126.
    #[error("numbers are too wide")]
    Wide(Which),
    #[error("out of memory")]
    Memory,
}

impl From<Memory> for NormalFault {
    ghost use Rattle.std.specs.Prelude.{◌≡◌};
    ghost use Rattle.qm_normal.specs.declared.fault.NormalFault.TheVariants as fault;

    ghost from_gives = { λ _ e. e ≡ fault.Memory };

    fn from(_: Memory) -> Self {
        NormalFault::Memory
    }
}
