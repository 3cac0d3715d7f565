ghost use Rattle.std.specs.Prelude.{◌≡◌, ℕ, ◌||◌, true, filter, OnOk};
ghost use Rattle.qm_parse.specs.Checks.{bound_uses, first_such, has_upper, is_infinite, sets_upper};
ghost use Rattle.qm_parse.specs.Marks.{is_marked};

use crate::ast::{AstBound, Named, Relation};
use crate::marks::Marks;
use qm_io::Memory;

/// The name of the first bound without a number.
pub(crate) fn infinite(bounds: &[AstBound]) -> Option<Named>
    ensures { result ≡ first_such (λ named. true) (bound_uses (filter is_infinite bounds.now)) }
{
    for bound in bounds {
        if bound.value.is_none() {
            return Some(Named {
                name: bound.name,
                at: bound.at,
            });
        }
    }
    None
}

/// Marks the names that have a bound from above.
pub(crate) fn mark_bounded(marks: &mut Marks, bounds: &[AstBound]) -> Result<(), Memory>
    ensures { OnOk result ((name : ℕ) → is_marked marks.new name ≡ (is_marked marks.old name || has_upper bounds.now name)) }
{
    for bound in bounds {
        if sets_upper(bound.relation) {
            marks.mark(bound.name)?;
        }
    }
    Ok(())
}

#[tactic(auto, unfolding(crate::specs::Checks::sets_upper))]
fn sets_upper(relation: Relation) -> bool
    ensures { result ≡ sets_upper relation }
{
    match relation {
        Relation::Less | Relation::Equal => true,
        Relation::Greater => false,
    }
}
