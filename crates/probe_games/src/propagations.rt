ghost use Rattle.qm_model.specs.Boxes.{IsBox};

use probe_words::{counted, range_word, range_words, row_word};
use qm_game::{Bx, Game};
use qm_prop::{Propagated, Reason, propagate};
use std::alloc::{AllocError, Global};

/// The most reasons that are written out.
const MOST: usize = 16;

/// The box that the rows narrow the box to, whether it is settled, and the reasons; or the dead row and the reasons.
pub fn propagation_line(alloc: Global, game: &Game, bx: Bx) -> Result<String, AllocError>
    requires { IsBox game.now.vars bx }
{
    match propagate(alloc, game, bx) {
        Ok(
            Propagated::Narrowed {
                bx,
                reasons,
                settled,
            },
        ) => {
            let word = if settled { "settled" } else { "unsettled" };
            let ranges = range_words(alloc, bx.as_slice())?;
            let reasons = reasons_text(alloc, reasons.as_slice())?;
            format!(in alloc; "{word}{ranges}{reasons}")
        }
        Ok(Propagated::Dead { row, reasons }) => {
            let row = row_word(alloc, row)?;
            let reasons = reasons_text(alloc, reasons.as_slice())?;
            format!(in alloc; "dead {row}{reasons}")
        }
        Err(_) => String::from_str(alloc, "memory"),
    }
}

// Each reason behind a comma; of many, how many there are.
fn reasons_text(alloc: Global, reasons: &[Reason]) -> Result<String, AllocError> {
    if reasons.len() > MOST {
        let count = reasons.len();
        return format!(in alloc; ", {count} reasons");
    }
    let mut out = String::new(alloc);
    for reason in reasons {
        out.push_str(reason_text(alloc, *reason)?.as_str())?;
    }
    Ok(out)
}

fn reason_text(alloc: Global, reason: Reason) -> Result<String, AllocError> {
    let var = counted(alloc, "x", reason.var)?;
    let row = row_word(alloc, reason.row)?;
    let before = range_word(alloc, reason.before)?;
    let after = range_word(alloc, reason.after)?;
    format!(in alloc; ", {row} {var} {before} to {after}")
}
