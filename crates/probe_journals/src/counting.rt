ghost use Rattle.std.specs.Prelude.{◌≡◌, ◌+◌, ◌*◌, IfSome, filter};
ghost use Rattle.qm_math.specs.Ranges.{size_of};
ghost use Rattle.qm_model.specs.Plays.{is_universal};
ghost use Rattle.qm_journal.specs.Enough.{enough, prefix_count};

use crate::first_values::{is_restricted, whole_vars};
use qm_game::{Game, Var};
use qm_model::is_for_all;

/// How many entries are enough for a journal of the game; none where that has more than 128 bits.
pub fn enough(game: &Game) -> Option<u128>
    ensures { IfSome result (λ count. count ≡ enough game.now) }
{
    let vars = whole_vars(game);
    let prefixes = prefixes_of(vars)?;
    if !is_restricted(game) {
        return Some(prefixes);
    }
    let plays = universal_prefixes_of(vars)?.checked_add(1)?;
    prefixes.checked_mul(plays)
}

fn prefixes_of(vars: &[Var]) -> Option<u128>
    ensures { IfSome result (λ count. count ≡ prefix_count vars.now) }
{
    match vars.split_first() {
        Some((var, later)) => one_and(size(var), prefixes_of(later)?),
        None => Some(1),
    }
}

fn universal_prefixes_of(vars: &[Var]) -> Option<u128>
    ensures { IfSome result (λ count. count ≡ prefix_count (filter is_universal vars.now)) }
{
    match vars.split_first() {
        Some((var, later)) => {
            let count = universal_prefixes_of(later)?;
            if is_for_all(var) {
                one_and(size(var), count)
            } else {
                Some(count)
            }
        }
        None => Some(1),
    }
}

fn one_and(size: u128, count: u128) -> Option<u128>
    ensures { IfSome result (λ all. all ≡ 1 + size * count) }
{
    size.checked_mul(count)?.checked_add(1)
}

fn size(var: &Var) -> u128
    ensures { result ≡ size_of var.now.low var.now.high }
{
    if var.high < var.low {
        return 0;
    }
    (i128::from(var.high) - i128::from(var.low) + 1).unsigned_abs()
}
