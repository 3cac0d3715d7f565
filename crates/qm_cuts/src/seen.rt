use qm_io::List;
use qm_model::Term;

/// What is seen of a cut's variables so far: the first whose coefficient may not stand, and the terms.
#[derive(Debug, Drop)]
pub(crate) struct Seen {
    pub(crate) broken: Option<u32>,
    pub(crate) terms: List<Term>,
}
