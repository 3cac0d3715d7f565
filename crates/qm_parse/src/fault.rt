use qm_io::List;
use qm_lex::Place;
use thiserror::Error;

/// What would have gone on.
#[derive(Clone, Copy, Debug, PartialEq, Eq)]
pub enum What {
    Sense,
    SubjectTo,
    To,
    Term,
    Name,
    Relation,
    Number,
    LineEnd,
    Section,
    Order,
    TextEnd,
}

/// Why tokens are no text. The faults of the grammar come first, and then the others in this order.
#[derive(Debug, Drop, Error)]
pub enum ParseFault {
    /// The token at this place, or the end of the text, can't go on.
    #[error("something else is expected")]
    Expected(Place, What),
    /// The number at this place is no fraction of 128 bits.
    #[error("a number is out of range")]
    Number(Place),
    /// A name of ALL stands in EXISTS too.
    #[error("a name belongs to both players")]
    BothPlayers(List<u8>, Place),
    /// A name stands in ORDER a second time.
    #[error("a name is ordered twice")]
    Twice(List<u8>, Place),
    /// A name of ORDER is no variable.
    #[error("a name is no variable")]
    Unknown(List<u8>, Place),
    /// A variable isn't in ORDER.
    #[error("a variable is not ordered")]
    Unordered(List<u8>, Place),
    /// A bound is infinite.
    #[error("a bound is infinite")]
    Infinite(List<u8>, Place),
    /// A variable has no upper bound.
    #[error("a variable has no upper bound")]
    NoUpper(List<u8>, Place),
    #[error("out of memory")]
    Memory,
}
