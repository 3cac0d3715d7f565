ghost use Rattle.std.specs.Prelude.{◌≡◌, ◌↔◌, ◌<◌, ◌^◌, IsSomeAnd, IsTrue, filter, int_lt, length, slice_get};
ghost use Rattle.std.specs.List.{list_any};
ghost use Rattle.qm_model.specs.declared.variable.Player.TheVariants.{All as Universal};
ghost use Rattle.qm_model.specs.Plays.{BeginWithin, IsWithin, is_universal, whole_vars};
ghost use Rattle.qm_journal.specs.Lawful.{is_restricted};

use qm_game::{Game, Var};
use qm_model::is_for_all;

/// The whole variables.
pub fn whole_vars(game: &Game) -> &[Var]
    ensures vars { result.now ≡ whole_vars game.now }
    ensures few { length result.now < 2 ^ 29 }
{
    let problem = game.problem();
    &problem.vars.as_slice()[..problem.wholes as usize]
}

/// Whether queries and steps are allowed.
pub fn is_restricted(game: &Game) -> bool
    ensures { result ≡ is_restricted game.now }
{
    !game.problem().urows.is_empty() || some_universal_empty(whole_vars(game))
}

fn some_universal_empty(vars: &[Var]) -> bool
    ensures { result ≡ list_any (λ x. int_lt x.high x.low) (filter is_universal vars.now) }
{
    match vars.split_first() {
        Some((var, later)) => {
            is_for_all(var) && var.high < var.low || some_universal_empty(later)
        }
        None => false,
    }
}

/// Whether the universal player sets the variable at this depth.
pub fn is_universal_turn(vars: &[Var], depth: usize) -> bool
    ensures { IsTrue result ↔ IsSomeAnd (slice_get vars.now depth) (λ x. x.player ≡ Universal) }
{
    match vars.get(depth) {
        Some(var) => is_for_all(var),
        None => false,
    }
}

/// Whether the values are of the first variables, each within its bounds.
pub fn begin_within(vars: &[Var], values: &[i64]) -> bool
    ensures { IsTrue result → BeginWithin vars.now values.now }
{
    match values.split_first() {
        Some((value, rest)) => match vars.split_first() {
            Some((var, later)) => is_within(var, *value) && begin_within(later, rest),
            None => false,
        },
        None => true,
    }
}

fn is_within(var: &Var, value: i64) -> bool
    ensures { IsTrue result → IsWithin var.now value }
{
    var.low <= value && value <= var.high
}
