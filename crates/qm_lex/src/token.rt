/// A name with a meaning of its own, in whatever case.
#[derive(Clone, Copy, Debug, PartialEq, Eq)]
pub enum Keyword {
    Maximize,
    Max,
    Minimize,
    Min,
    Subject,
    To,
    St,
    Uncertainty,
    Bounds,
    Generals,
    General,
    Binaries,
    Binary,
    Exists,
    All,
    Order,
    End,
}

/// What a token is.
#[derive(Clone, Copy, Debug, PartialEq, Eq)]
pub enum Kind {
    /// A name that is no keyword and not infinite.
    Name,
    Number,
    Plus,
    Minus,
    Less,
    Greater,
    Equal,
    Colon,
    Keyword(Keyword),
    /// INF, INFINITY or FREE.
    Infinite,
}

/// A token, and the bytes that it takes: from `start` up to `end`.
#[derive(Clone, Copy, Debug, PartialEq, Eq)]
pub struct Token {
    pub kind: Kind,
    pub start: usize,
    pub end: usize,
}

/// What token stands at the front of a text, and how many bytes it takes.
#[derive(Clone, Copy)]
pub struct Found {
    pub kind: Kind,
    pub len: usize,
}
