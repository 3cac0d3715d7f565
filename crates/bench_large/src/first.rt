ghost use Rattle.qm_model.specs.Boxes.{IsBox};

use crate::games::game;
use qm_game::{Bx, Game, whole_box};
use qm_io::{List, Memory};
use qm_tableau::first;
use std::alloc::{AllocError, Global};

// How many rows and columns a tableau has.
#[derive(Clone, Copy)]
struct Extent {
    height: usize,
    width: usize,
}

// The extent of the first tableau of a game of 1,000 variables and 1,000 rows, which is made so many times.
fn made_in(alloc: Global, times: u32) -> Result<Extent, Memory> {
    let game = game(alloc, 1000, 0, List::new(alloc))?;
    let bx: Bx = whole_box(alloc, &game)?;
    let mut last = Extent {
        height: 0,
        width: 0,
    };
    for _ in 0..times {
        last = made(alloc, &game, &bx)?;
    }
    Ok(last)
}

fn made(alloc: Global, game: &Game, bx: &Bx) -> Result<Extent, Memory>
    requires { IsBox game.now.vars bx.now }
{
    let tableau = first(alloc, game, &[], bx)?;
    Ok(Extent {
        height: tableau.height(),
        width: tableau.width(),
    })
}

/// How many rows and columns that tableau has.
pub fn first_line(alloc: Global, times: u32) -> Result<String, AllocError> {
    match made_in(alloc, times) {
        Ok(extent) => {
            let height = extent.height;
            let width = extent.width;
            format!(in alloc; "{height} {width}")
        }
        Err(Memory) => String::from_str(alloc, "out of memory"),
    }
}
