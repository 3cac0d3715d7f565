ghost use Rattle.std.specs.Prelude.{◌≡◌, ℕ, ◌<◌, ◌==◌, length, None, Some, OnOk, if◌then◌else◌};
ghost use Rattle.qm_normal.specs.Ends.{later};
ghost use Rattle.qm_normal.specs.TableSteps.{value_by};

use qm_frac::Frac;
use qm_io::{List, Memory};
use std::alloc::Global;

/// A value by the number of a name: the one that was set last, if any was.
#[derive(Drop)]
pub(crate) struct Latest {
    values: List<Option<Frac>>,
}

impl Latest {
    /// No number has a value.
    pub fn new(alloc: Global) -> Latest
        ensures { (name : ℕ) → value_by result name ≡ None }
    {
        Latest {
            values: List::new(alloc),
        }
    }

    pub fn value(&self, name: u32) -> Option<Frac>
        ensures { result ≡ value_by self.now name }
    {
        let at = name as usize;
        let values = self.values.as_slice();
        if at < values.len() { values[at] } else { None }
    }

    /// Sets the value of a number, if there is one to set.
    #[tactic(auto, unfolding(crate::specs::Ends::later))]
    pub fn note(&mut self, name: u32, value: Option<Frac>) -> Result<(), Memory>
        ensures { OnOk result ((other : ℕ) → value_by self.new other ≡ (if name == other then later (value_by self.old other) value else value_by self.old other)) }
    {
        if let Some(value) = value {
            self.set(name, value)?;
        }
        Ok(())
    }

    /// Sets the value of a number, in place of the one that it has.
    fn set(&mut self, name: u32, value: Frac) -> Result<(), Memory>
        ensures { OnOk result ((other : ℕ) → value_by self.new other ≡ (if name == other then Some value else value_by self.old other)) }
    {
        self.reach(name)?;
        self.values.set(name as usize, Some(value));
        Ok(())
    }

    /// Gives the number a place, where it has none.
    fn reach(&mut self, name: u32) -> Result<(), Memory>
        ensures reached { OnOk result (name < length self.new.values) }
        ensures same { OnOk result ((other : ℕ) → value_by self.new other ≡ value_by self.old other) }
    {
        while self.values.len() <= name as usize {
            self.values.push(None)?;
        }
        Ok(())
    }
}
