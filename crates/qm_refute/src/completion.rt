ghost use Rattle.std.specs.Prelude.{◌≡◌, ◌<◌, ◌≤◌, length, pos, slice_index_or};
ghost use Rattle.qm_model.specs.Boxes.{IsBox};
ghost use Rattle.qm_model.specs.Ranges.{is_in, range_at};
ghost use Rattle.qm_trees.specs.Picks.{fit, universal_count};
ghost use Rattle.qm_refute.specs.Picking.{fits_pick};

use qm_game::{Bx, Place, Range, Var};
use qm_model::{contains, is_for_all};

/// How many of the variables are universal.
fn universal_count(vars: &[Var]) -> usize
    ensures { result ≡ universal_count vars.now }
{
    let mut count = 0;
    for var in vars {
        if is_for_all(var) {
            count += 1;
        }
    }
    count
}

/// Whether the value at this place of the completion lies in the range of this variable.
fn has_value(ranges: &[Range], at: usize, completion: &[i64], used: usize) -> bool
    requires at { at < length ranges.now }
    requires used { used < length completion.now }
    ensures { result ≡ is_in (range_at ranges.now at) (slice_index_or completion.now used (pos 0)) }
{
    contains(ranges[at], completion[used])
}

/// Whether there is one value for each universal variable, in its range.
fn fits(vars: &[Var], ranges: &[Range], completion: &[i64]) -> bool
    requires { length vars.now ≤ length ranges.now }
    ensures { result ≡ fit vars.now ranges.now completion.now }
{
    let mut used = 0;
    for (at, var) in vars.iter().enumerate() {
        if is_for_all(var) {
            if used == completion.len() || !has_value(ranges, at, completion, used) {
                return false;
            }
            used += 1;
        }
    }
    used == completion.len()
}

/// Whether the universal player sets the next variable, the value lies in its range, and there is one value in range
/// for each later universal variable.
#[tactic(auto, using(crate::proofs::Picking::rest_in_box))]
pub fn fits_pick(here: Place<'_>, bx: &Bx, value: i64, completion: &[i64]) -> bool
    requires { IsBox here.game.now.vars bx.now }
    ensures { result ≡ fits_pick here.entry.rest.now here.entry.depth bx.now value completion.now }
{
    let Some((var, later)) = here.rest.split_first() else {
        return false;
    };
    is_for_all(var)
        && completion.len() == universal_count(later)
        && contains(here.range(bx), value)
        && fits(later, &bx.as_slice()[here.depth + 1..], completion)
}
