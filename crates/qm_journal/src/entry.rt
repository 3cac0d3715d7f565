/// What an entry stands for: a prefix that the search looks into, a prefix that is asked whether it is legal, or a step
/// of the answer.
#[derive(Clone, Copy, Debug, PartialEq, Eq)]
pub enum JKind {
    Game,
    Query,
    Step,
}

/// An entry of a journal, in 16 bytes: the number of the entry whose prefix it continues, or 0 for the empty one, and
/// the value that it appends.
#[derive(Clone, Copy, Debug, PartialEq, Eq)]
pub struct JEntry {
    pub kind: JKind,
    pub parent: u32,
    pub value: i64,
}
