use qm_lex::Place;

/// How a name is used wrong, in the order in which these are judged.
#[derive(Clone, Copy)]
pub(crate) enum Offence {
    BothPlayers,
    Twice,
    Unknown,
    Unordered,
    Infinite,
    NoUpper,
}

/// A name that is used wrong, by its number, and where.
#[derive(Clone, Copy)]
pub(crate) struct NameFault {
    pub offence: Offence,
    pub name: u32,
    pub at: Place,
}
