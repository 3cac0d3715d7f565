use qm_game::Bx;
use qm_journal::Journal;

/// What a search changes: the box of the prefix where it stands, and its journal.
#[derive(Debug, Drop)]
pub struct Search {
    pub bx: Bx,
    pub journal: Journal,
}
