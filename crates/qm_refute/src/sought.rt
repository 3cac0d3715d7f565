use qm_game::{Goal, Row};

/// What a refutation is of: the goal that can't be reached, and the cuts that its combinations may name beside the
/// game's rows.
#[derive(Clone, Copy, Debug)]
pub struct Sought<'a> {
    pub cuts: &'a [Row],
    pub goal: &'a Goal,
}
