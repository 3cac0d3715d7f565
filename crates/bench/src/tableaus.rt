ghost use Rattle.qm_model.specs.Boxes.{IsBox};

use crate::answer::unasked;
use bench_made::{Density, Made, game_of, text_of};
use qm_game::{Bx, Game, whole_box};
use qm_io::{List, Memory};
use qm_tableau::{Tableau, first};
use std::alloc::Global;

// The first tableau of the first made problem of a size, dense or sparse.
#[derive(Clone, Copy)]
struct Shape {
    density: Density,
    made: Made,
}

impl Shape {
    fn read(word: &str) -> Option<Shape> {
        let (size, density) = word.split_once('-')?;
        let density = match density {
            "dense" => Density::Dense,
            "sparse" => Density::Sparse,
            _ => return None,
        };
        Some(Shape {
            density,
            made: Made::new(size.parse::<u32>().ok()?, 1)?,
        })
    }
}

// How many pivots were done, and how many of these left whole numbers over one denominator a row.
#[derive(Clone, Copy)]
struct Done {
    pivots: u32,
    whole: u32,
}

// The first tableau of this shape; none where no such game is.
fn first_tableau(alloc: Global, shape: Shape) -> Result<Option<Tableau>, Memory> {
    let text = text_of(alloc, shape.density, shape.made)?;
    match game_of(alloc, text.as_str()) {
        Some(game) => {
            let bx = whole_box(alloc, &game)?;
            Ok(Some(first_of(alloc, &game, &bx)?))
        }
        None => Ok(None),
    }
}

fn first_of(alloc: Global, game: &Game, bx: &Bx) -> Result<Tableau, Memory>
    requires { IsBox game.now.vars bx.now }
{
    let cuts = List::new(alloc);
    first(alloc, game, cuts.as_slice(), bx)
}

// Whether there was such a pivot, and it didn't leave.
fn pivot(tableau: &mut Tableau, row: u32, col: u32) -> bool {
    if row as usize >= tableau.height() || col == 0 || col as usize >= tableau.width() {
        return false;
    }
    if tableau.entry(row, col).num() <= 0 {
        return false;
    }
    tableau.pivot(row, col).is_ok()
}

fn row_of_column(tableau: &Tableau, col: u32) -> u32 {
    if col == 0 || col as usize >= tableau.width() {
        return 0;
    }
    tableau.row_of_column(col)
}

// The row and the column of a pivot that the turn decides, the row among the slacks.
fn place(tableau: &Tableau, turn: u32) -> (u32, u32) {
    let columns = (tableau.width() as u32).saturating_sub(1).max(1);
    let height = tableau.height() as u32;
    let slacks = height.saturating_sub(columns.saturating_mul(2)).max(2) - 1;
    let row = height.saturating_sub(1).saturating_sub(turn % slacks);
    (row, (turn / slacks % columns).wrapping_add(1))
}

// What was done in so many turns. In each, a pivot is made where there is a positive entry, and a second one that
// takes it back, so that the entries stay small.
fn pivots(alloc: Global, shape: Shape, turns: u32) -> Result<Done, Memory> {
    let mut done = Done {
        pivots: 0,
        whole: 0,
    };
    if let Some(mut tableau) = first_tableau(alloc, shape)? {
        for turn in 0..turns {
            let (row, col) = place(&tableau, turn);
            let back = row_of_column(&tableau, col);
            if pivot(&mut tableau, row, col) && pivot(&mut tableau, back, col) {
                done.pivots = done.pivots.wrapping_add(2);
                if tableau.is_whole() {
                    done.whole = done.whole.wrapping_add(2);
                }
            }
        }
    }
    Ok(done)
}

/// How many pivots were done, and how many of these left whole numbers.
pub fn pivots_line(alloc: Global, shape: &str, turns: &str) -> Result<String, Memory> {
    match (Shape::read(shape), turns.parse::<u32>().ok()) {
        (Some(shape), Some(turns)) => {
            let done = pivots(alloc, shape, turns)?;
            let pivots = done.pivots;
            let whole = done.whole;
            Ok(format!(in alloc; "{pivots} {whole}")?)
        }
        _ => unasked(alloc),
    }
}
