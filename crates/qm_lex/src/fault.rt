use crate::Place;
use thiserror::Error;

/// Why a text has no tokens.
#[derive(Clone, Copy, Debug, PartialEq, Eq, Error)]
pub enum LexFault {
    /// The byte at this place begins no token, and is no blank and no comment.
    #[error("a byte begins no token")]
    BadByte(Place),
    #[error("out of memory")]
    Memory,
}
