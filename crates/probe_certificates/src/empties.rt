ghost use Rattle.qm_model.specs.Boxes.{IsBox};

use crate::trees::tree_of;
use probe_words::test_line;
use qm_combo::test_empty;
use qm_game::{Bx, Game};
use std::alloc::{AllocError, Global};

/// Whether the tree of these lines shows that no universal play has its values in the box.
pub fn empty_line(alloc: Global, game: &Game, bx: Bx, lines: &str) -> Result<String, AllocError>
    requires { IsBox game.now.vars bx }
{
    let mut bx = bx;
    match tree_of(alloc, lines) {
        Ok(tree) => test_line(alloc, test_empty(game, &mut bx, &tree)),
        Err(why) => String::from_str(alloc, why.line()),
    }
}
