use crate::fault::What;
use qm_io::Memory;
use qm_lex::Place;

/// Why symbols are not read.
#[derive(Clone, Copy)]
pub(crate) enum Unread {
    /// The symbol at this place, or the end of the text, can't go on.
    Expected(Place, What),
    /// The number at this place leaves.
    Number(Place),
    Memory,
}

impl From<Memory> for Unread {
    ghost use Rattle.std.specs.Prelude.{◌≡◌};
    ghost use Rattle.qm_parse.specs.declared.unread.Unread.TheVariants as unread;

    ghost from_gives = { λ _ e. e ≡ unread.Memory };

    fn from(_: Memory) -> Self {
        Unread::Memory
    }
}
