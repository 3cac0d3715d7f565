use crate::ast::Relation;
use qm_frac::Frac;
use qm_lex::{Keyword, Place};

/// What a token says.
#[derive(Clone, Copy)]
pub enum Word {
    /// A name by its number, and whether a colon follows it.
    Name(u32, bool),
    /// A number; `None` where it is no fraction of 128 bits.
    Number(Option<Frac>),
    /// A plus, or a minus where the flag is set.
    Sign(bool),
    Related(Relation),
    Colon,
    Keyword(Keyword),
    /// INF or INFINITY.
    Infinite,
    Free,
}

/// A token as the grammar sees it.
#[derive(Clone, Copy)]
pub struct Symbol {
    pub word: Word,
    pub place: Place,
    /// Whether the token before it stands on an earlier line, or there is none.
    pub begins_line: bool,
}
