use crate::names::Names;
use qm_frac::Frac;
use qm_io::List;
use qm_lex::Place;
use qm_model::Sense;

/// How the sides of a row or of a bound compare.
#[derive(Clone, Copy, Debug, PartialEq, Eq)]
pub enum Relation {
    Less,
    Greater,
    Equal,
}

/// A multiple of a variable, at the place of its name; or a constant of the objective, at the place of its number.
#[derive(Clone, Copy, Debug, PartialEq, Eq)]
pub struct AstTerm {
    pub coef: Frac,
    /// The number of the name; `None` for a constant.
    pub name: Option<u32>,
    pub at: Place,
}

/// A row, at the place where it begins. Its terms stand in the order of the text, repeated ones too.
#[derive(Debug, Drop)]
pub struct AstRow {
    pub terms: List<AstTerm>,
    pub relation: Relation,
    pub right: Frac,
    pub at: Place,
}

/// One relation of a bound, turned so that the name stands on its left, at the place of the name.
#[derive(Clone, Copy, Debug, PartialEq, Eq)]
pub struct AstBound {
    /// The number of the name.
    pub name: u32,
    pub relation: Relation,
    /// `None` for INF, INFINITY and FREE.
    pub value: Option<Frac>,
    pub at: Place,
}

/// A name in a list of names, at its place.
#[derive(Clone, Copy, Debug, PartialEq, Eq)]
pub struct Named {
    /// The number of the name.
    pub name: u32,
    pub at: Place,
}

/// What a text says, as it is written. A section that isn't there is empty. Names are numbered from 0 in `names`, which
/// holds labels too.
#[derive(Debug, Drop)]
pub struct Ast {
    pub sense: Sense,
    pub objective: List<AstTerm>,
    pub rows: List<AstRow>,
    pub uncertain: List<AstRow>,
    pub bounds: List<AstBound>,
    pub generals: List<Named>,
    pub binaries: List<Named>,
    pub existential: List<Named>,
    pub universal: List<Named>,
    pub order: List<Named>,
    pub names: Names,
}
