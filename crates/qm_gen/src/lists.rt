ghost use Rattle.std.specs.Prelude.{◌≡◌, ◌≤◌, ◌++◌, [], ◌∷◌, if◌then◌else◌, filter, length, IfOk, OnOk};
ghost use Rattle.qm_gen.specs.Generated.{variables};
ghost use Rattle.qm_gen.specs.WritingSteps.{is_in};

use crate::term::is_universal;
use qm_io::{List, Memory};
use std::alloc::Global;

/// Variables that a list names.
#[derive(Clone, Copy)]
pub(crate) enum Group {
    Everyone,
    Existential,
    Universal,
}

impl Group {
    fn contains(self, variable: u32) -> bool
        ensures { result ≡ is_in self variable }
    {
        match self {
            Group::Everyone => true,
            Group::Existential => !is_universal(variable),
            Group::Universal => is_universal(variable),
        }
    }
}

/// The numbers of the variables of a group, of so many in all.
pub(crate) fn variables(alloc: Global, group: Group, size: u32) -> Result<List<u32>, Memory>
    requires { size ≤ 100 }
    ensures numbers { IfOk result (λ numbers. numbers ≡ filter (is_in group) (variables size)) }
    ensures few { IfOk result (λ numbers. length numbers ≤ size) }
{
    let mut numbers = List::new(alloc);
    for place in 0..size {
        push_member(group, place + 1, &mut numbers)?;
    }
    Ok(numbers)
}

// Puts the variable in where it is of the group.
fn push_member(group: Group, variable: u32, numbers: &mut List<u32>) -> Result<(), Memory>
    ensures { OnOk result (numbers.new ≡ numbers.old ++ (if is_in group variable then variable ∷ [] else [])) }
{
    if !group.contains(variable) {
        return Ok(());
    }
    numbers.push(variable)
}
