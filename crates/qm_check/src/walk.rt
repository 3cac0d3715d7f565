use crate::due::Due;
use qm_game::Bx;
use qm_io::List;

/// How far a certificate was read: what is due, of which the last comes first, and the box of what is due last.
#[derive(Debug, Drop)]
pub(crate) struct Walk {
    pub due: List<Due>,
    pub bx: Bx,
}
