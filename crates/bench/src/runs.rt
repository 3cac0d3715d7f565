ghost use Rattle.std.specs.Prelude.{Any};
ghost use Rattle.qm_model.specs.Boxes.{IsBox, IsEmptyRange};

use crate::answer::unasked;
use crate::asked::Asked;
use bench_made::{Density, game_of, text_of};
use qm_game::{Bx, Game, has_empty, whole_box};
use qm_io::{List, Memory};
use qm_simplex::{LpEnd, LpFault, solve_lp};
use qm_tableau::{Choice, Tableau, first};
use std::alloc::Global;

/// How runs end.
#[derive(Clone, Copy)]
pub enum Ending {
    Best,
    Void,
    Leaves,
    None,
}

impl Ending {
    pub fn word(self) -> &'static str {
        match self {
            Ending::Best => "best",
            Ending::Void => "void",
            Ending::Leaves => "leaves",
            Ending::None => "none",
        }
    }
}

/// How a run ends, after how many pivots, and how many of these left whole numbers over one denominator a row.
#[derive(Clone, Copy)]
pub struct Ended {
    pub ending: Ending,
    pub pivots: u64,
    pub whole: u64,
}

impl Ended {
    fn new(ending: Ending, pivots: u64) -> Ended {
        Ended {
            ending,
            pivots,
            whole: 0,
        }
    }
}

/// How the last run over a made problem ends, after how many pivots, and how many of these left whole numbers.
pub fn runs_line(alloc: Global, density: Density, asked: Asked) -> Result<String, Memory> {
    let text = text_of(alloc, density, asked.made)?;
    match game_of(alloc, text.as_str()) {
        Some(game) => {
            let ended = last_on(alloc, &game, asked.times)?;
            let word = ended.ending.word();
            let pivots = ended.pivots;
            let whole = ended.whole;
            Ok(format!(in alloc; "{word} {pivots} {whole}")?)
        }
        None => unasked(alloc),
    }
}

/// How the last of so many runs over the whole box ends.
pub fn last_on(alloc: Global, game: &Game, times: u32) -> Result<Ended, Memory> {
    let bx = whole_box(alloc, game)?;
    let mut ended = Ended::new(Ending::None, 0);
    if has_empty(&bx) {
        return Ok(ended);
    }
    for _ in 0..times {
        ended = ended_on(alloc, game, &bx)?;
    }
    if times > 0 {
        ended.whole = whole_pivots(alloc, game, &bx, ended.pivots)?;
    }
    Ok(ended)
}

// How many of the run's first pivots, so many at most, leave whole numbers over one denominator a row.
fn whole_pivots(alloc: Global, game: &Game, bx: &Bx, pivots: u64) -> Result<u64, Memory>
    requires { IsBox game.now.vars bx.now }
{
    let cuts = List::new(alloc);
    let mut tableau = first(alloc, game, cuts.as_slice(), bx)?;
    let mut whole: u64 = 0;
    for _ in 0..pivots {
        if !pivots_by_rule(&mut tableau) {
            break;
        }
        if tableau.is_whole() {
            whole = whole.wrapping_add(1);
        }
    }
    Ok(whole)
}

// Whether the rule names a pivot that doesn't leave, which is then made.
fn pivots_by_rule(tableau: &mut Tableau) -> bool {
    match tableau.choose() {
        Ok(Choice::Pivot(row, col)) => tableau.pivot(row, col).is_ok(),
        _ => false,
    }
}

fn ended_on(alloc: Global, game: &Game, bx: &Bx) -> Result<Ended, Memory>
    requires bx { IsBox game.now.vars bx.now }
    requires full { Any IsEmptyRange bx.now → ⊥ }
{
    let cuts = List::new(alloc);
    match solve_lp(alloc, game, cuts.as_slice(), bx) {
        Ok(LpEnd::Best { pivots, .. }) => Ok(Ended::new(Ending::Best, pivots)),
        Ok(LpEnd::Void { pivots, .. }) => Ok(Ended::new(Ending::Void, pivots)),
        Err(LpFault::Leaves(run)) => Ok(Ended::new(Ending::Leaves, run.pivots.len() as u64)),
        Err(LpFault::Memory) => Err(Memory),
    }
}
