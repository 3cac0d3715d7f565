use crate::frac::Frac;

/// An operation that may leave the range.
#[derive(Clone, Copy, Debug, PartialEq, Eq)]
pub enum Op {
    Add,
    Sub,
    Mul,
    Div,
}

/// An operation that leaves the range, with its operands as they were given.
#[derive(Clone, Copy, Debug, PartialEq, Eq)]
pub struct Leaves {
    pub op: Op,
    pub left: Frac,
    pub right: Frac,
}
