ghost use Rattle.std.specs.Prelude.{◌≡◌, ◌+◌, ◌^◌, ◌<◌, ◌≤◌, [], Some, IfOk, length, slice_get};
ghost use Rattle.qm_parse.specs.NameTables.{AreDistinct};
ghost use Rattle.qm_parse.specs.Symbols.{with_name};

use indexmap::IndexSet;
use qm_io::{List, Memory};
use std::alloc::Global;
use std::marker::Model;

/// Names, each once, numbered from 0. Contracts see them as their list.
#[derive(Debug, Drop)]
pub struct Names {
    set: IndexSet<Vec<u8>>,
}

impl Model for Names {
    ghost use Rattle.std.specs.Prelude.{ℕ, List, map};
    ghost use Rattle.qm_parse.specs.NameTables.{AreDistinct};

    ghost Value = { List (List ℕ) };

    ghost view = { λ names. map (λ name. name.items) names.set.keys };

    ghost invariant = { λ names. AreDistinct (map (λ name. name.items) names.set.keys) };
}

impl Names {
    /// No names.
    pub(crate) fn new(alloc: Global) -> Names
        ensures { result ≡ [] }
    {
        Names {
            set: IndexSet::new(alloc),
        }
    }

    /// How many names there are.
    pub fn len(&self) -> usize
        ensures len { result ≡ length self.now }
        ensures distinct { AreDistinct self.now }
    {
        self.set.len()
    }

    /// The name of a number.
    pub fn name(&self, number: usize) -> &[u8]
        requires { number < length self.now }
        ensures { slice_get self.now number ≡ Some result.now }
    {
        self.set[number].as_slice()
    }

    /// The number of a name. One that is new is copied, and put last.
    pub(crate) fn number(&mut self, alloc: Global, name: &[u8]) -> Result<u32, Memory>
        requires { length self.old < 2 ^ 31 }
        ensures number { IfOk result (λ n. slice_get self.new n ≡ Some name.now) }
        ensures names { IfOk result (λ n. self.new ≡ with_name self.old name.now) }
        ensures few { IfOk result (λ n. length self.new ≤ length self.old + 1) }
    {
        if let Some(number) = self.set.get_index_of(name) {
            return Ok(number as u32);
        }
        let copy = name.to_vec(alloc)?;
        let (number, _) = self.set.insert_full(copy).map_err(|_| Memory)?;
        Ok(number as u32)
    }
}

/// A copy of a name.
pub(crate) fn copy_of(alloc: Global, name: &[u8]) -> Result<List<u8>, Memory>
    ensures { IfOk result (λ copy. copy ≡ name.now) }
{
    let mut copy = List::new(alloc);
    copy.append(name)?;
    Ok(copy)
}
