use crate::Combo;
use qm_model::Range;
use sqlite_items::Items;

/// Why no universal play has its values in a box.
#[cycle(empty)]
#[derive(Debug, Drop)]
pub enum Empty {
    /// The ranges of the parts cover the range of a universal variable.
    Split { var: u32, parts: Items<EmptyPart> },
    /// The uncertainty rows contradict the box.
    Close(Combo),
}

/// Why none has a value of this range.
#[cycle(empty)]
#[derive(Debug, Drop)]
pub struct EmptyPart {
    pub range: Range,
    pub below: Empty,
}
