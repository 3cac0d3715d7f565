ghost use Rattle.std.specs.Prelude.{◌≡◌, ◌++◌, IfOk, OnOk};
ghost use Rattle.qm_model.specs.Boxes.{IsBox, bounds_of};
ghost use Rattle.qm_model.specs.Legal.{IsPrefix};
ghost use Rattle.qm_journal.specs.Lawful.{prefix_box};

use qm_game::{Bx, Game, Range, Var};
use qm_io::{List, Memory};
use qm_model::single;
use std::alloc::Global;

fn bounds(var: &Var) -> Range
    ensures { result ≡ bounds_of var.now }
{
    Range {
        low: var.low,
        high: var.high,
    }
}

/// The box in which the first variables have these values.
pub fn box_of_prefix(alloc: Global, game: &Game, prefix: &[i64]) -> Result<Bx, Memory>
    requires { IsPrefix game.now prefix.now }
    ensures bx { IfOk result (λ bx. bx ≡ prefix_box game.now.vars prefix.now) }
    ensures is_box { IfOk result (IsBox game.now.vars) }
{
    let mut bx = List::new(alloc);
    push_prefix_box(&mut bx, game.problem().vars.as_slice(), prefix)?;
    Ok(bx)
}

fn push_prefix_box(bx: &mut Bx, vars: &[Var], values: &[i64]) -> Result<(), Memory>
    ensures { OnOk result (bx.new ≡ bx.old ++ prefix_box vars.now values.now) }
{
    match vars.split_first() {
        Some((var, later)) => match values.split_first() {
            Some((value, rest)) => {
                bx.push(single(*value))?;
                push_prefix_box(bx, later, rest)
            }
            None => {
                bx.push(bounds(var))?;
                push_prefix_box(bx, later, values)
            }
        },
        None => Ok(()),
    }
}
