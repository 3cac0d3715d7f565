ghost use Rattle.std.specs.Prelude.{◌≡◌};
ghost use Rattle.qm_trees.specs.RefuteJudgement.{counts_over};

use qm_cover::count_is_right;
use qm_game::{Range, Var};
use qm_model::is_for_all;

/// Whether there are no parts exactly where the covered range is empty, and one alone for a universal variable.
pub fn over_count_is_right(var: &Var, covered: Range, count: usize) -> bool
    ensures { result ≡ counts_over var.now covered count }
{
    count_is_right(covered, count) && (!is_for_all(var) || count == 1)
}
