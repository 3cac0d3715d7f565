/// A list of names.
#[derive(Clone, Copy)]
pub enum NameList {
    Generals,
    Binaries,
    Exists,
    All,
    Order,
}

/// What a section holds behind the rows.
#[derive(Clone, Copy)]
pub enum Section {
    Uncertainty,
    Bounds,
    Names(NameList),
}

/// Which sections have begun so far.
#[derive(Clone, Copy)]
pub struct Seen {
    pub uncertainty: bool,
    pub bounds: bool,
    pub generals: bool,
    pub binaries: bool,
    pub exists: bool,
    pub all: bool,
    pub order: bool,
}

/// Where in its part the last token of a beginning stands.
#[derive(Clone, Copy)]
pub enum Stage {
    /// Nothing was read.
    Start,
    /// The sense was read.
    ObjectiveFirst,
    /// The name of the objective.
    ObjectiveLabel,
    /// The colon behind it.
    ObjectiveBegin,
    ObjectiveSigned,
    ObjectiveNumber,
    ObjectiveTerm,
    /// SUBJECT.
    SubjectHeading,
    /// UNCERTAINTY.
    UncertaintyHeading,
    /// The heading of the rows.
    RowsBegin,
    RowLabel,
    /// The colon of a label, or signs of a term.
    RowSigned,
    RowNumber,
    RowTerm,
    /// The relation, or signs of the right side.
    RowRelation,
    /// The right side.
    RowEnd,
    /// BOUNDS.
    BoundsBegin,
    /// Signs before the value that begins a bound.
    BoundSigned,
    /// The value that begins a bound.
    BoundValue,
    /// The relation behind it.
    BoundTurned,
    /// The name behind that.
    BoundNamed,
    /// The name that begins a bound.
    BoundName,
    /// A relation behind a name, or signs of the value behind it.
    BoundRelation,
    BoundEnd,
    /// The heading of a list of names, or a name of it.
    Names(NameList),
    /// END.
    Ended,
}

/// The state of a beginning of a text.
#[derive(Clone, Copy)]
pub struct State {
    pub stage: Stage,
    pub seen: Seen,
}
